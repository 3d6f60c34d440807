// When the lock queue of one card is good. What is sent to a bad one gets 10.
ghost use Rattle.std.specs.Prelude.{◌≡◌};
ghost use Rattle.lock_queue.specs.Queue.{state};
ghost use Rattle.lock_queue.specs.Good.{good};
ghost use Rattle.lock_queue.specs.inner.Entries.{entries_good, fits_behind};

use crate::inner::state::stands;
use crate::{MOST_PLACES, Queue, Waiting};
use stamps::Pair;

// Whether the queue is not bad.
pub fn good(queue: &Queue, lent: usize) -> bool
    ensures { result ≡ good lent (state queue.now) }
{
    if !((1 <= lent) & (lent <= MOST_PLACES) & (queue.count <= lent)) {
        return false;
    }
    let largest = queue.largest;
    stamps::stamp_valid(largest.s)
        & stamps::stamp_valid(largest.x)
        & entries_good(queue.standing(), largest)
}

// Whether the entry keeps the rules, and none of those before it has its desk and start.
fn entry_good(before: &[Waiting], w: Waiting, largest: Pair) -> bool
    ensures { result ≡ fits_behind largest before.now w }
{
    w.formed() & !stands(before, w.desk()) & (w.pair.s <= largest.s) & (w.pair.x <= largest.x)
}

// Whether the entries keep the rules.
pub fn entries_good(standing: &[Waiting], largest: Pair) -> bool
    ensures { result ≡ entries_good largest standing.now }
{
    standing
        .iter()
        .enumerate()
        .all(|(i, w)| entry_good(&standing[..i], *w, largest))
}
