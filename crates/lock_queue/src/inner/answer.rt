ghost use Rattle.std.specs.Prelude.{◌≡◌};
ghost use Rattle.lock_queue.specs.Queue.{state};
ghost use Rattle.lock_queue.specs.Requests.{answered};

use crate::inner::state::{holds, looked};
use crate::{LockAnswer, Queue};
use numbers::{BAD_QUEUE, MALFORMED};
use stamps::NO_PAIR;

// The answer with this number, for the queue at entry and the queue as it now is.
pub fn answered(number: u8, desk: u32, entry: &Queue, exit: &Queue) -> LockAnswer
    ensures { result ≡ answered number desk (state entry.now) (state exit.now) }
{
    if (number == BAD_QUEUE) | (number == MALFORMED) {
        return LockAnswer {
            number,
            holds: false,
            largest: NO_PAIR,
            looked: 0,
        };
    }
    LockAnswer {
        number,
        holds: holds(exit.standing(), desk),
        largest: exit.largest,
        looked: looked(entry.standing(), desk),
    }
}
