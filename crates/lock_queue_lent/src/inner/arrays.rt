// The lock queue of one card as arrays of numbers: loaded, and an outcome stored back.
// Kept: arrays of one length side by side, as the C functions lend them (lupaniele_ask, lupaniele_leave, lupaniele_lapse).
ghost use Rattle.std.specs.Prelude.{◌≡◌};
ghost use Rattle.lock_queue.specs.Queue.{state};
ghost use Rattle.lock_queue_lent.specs.Arrays.{places_of, modes_of, shared_of, exclusive_of, queue_of, kept_of, answer_of, arrays_of};

use lock_queue::{LockAnswer, LockOutcome, NO_WAITING, Places, Queue, Waiting};
use stamps::Pair;

// The places that three arrays hold.
pub fn places_of(modes: &[u8; 32], s: &[u64; 32], x: &[u64; 32]) -> Places
    ensures { result.at ≡ places_of modes.now s.now x.now }
{
    let mut places = Places {
        at: [NO_WAITING; 32],
    };
    for i in 0..32 {
        places.at[i] = Waiting {
            mode: modes[i],
            pair: Pair { s: s[i], x: x[i] },
        };
    }
    places
}

// The queue that the arrays hold.
pub fn load(modes: &[u8; 32], s: &[u64; 32], x: &[u64; 32], kept: &[u64; 3]) -> Queue
    ensures { state result ≡ queue_of modes.now s.now x.now kept.now }
{
    Queue {
        places: places_of(modes, s, x),
        count: kept[0] as usize,
        largest: Pair {
            s: kept[1],
            x: kept[2],
        },
    }
}

// Writes the queue to the arrays.
pub fn store(
    modes: &mut [u8; 32],
    s: &mut [u64; 32],
    x: &mut [u64; 32],
    kept: &mut [u64; 3],
    queue: Queue,
)
    ensures modes { modes.new ≡ modes_of (state queue).places }
    ensures s { s.new ≡ shared_of (state queue).places }
    ensures x { x.new ≡ exclusive_of (state queue).places }
    ensures kept { kept.new ≡ kept_of (state queue) }
{
    let places = queue.places;
    for i in 0..32 {
        let w = places.at[i];
        modes[i] = w.mode;
        s[i] = w.pair.s;
        x[i] = w.pair.x;
    }
    let largest = queue.largest;
    *kept = [queue.count as u64, largest.s, largest.x];
}

// The fields of a queue's answer as numbers.
pub fn write_answer(answer: &mut [u64; 4], a: LockAnswer)
    ensures { answer.new ≡ answer_of a }
{
    let largest = a.largest;
    *answer = [a.holds as u64, largest.s, largest.x, a.looked as u64];
}

// Kept: the number is that of the answer, as C reads it (`arrays_of`).
// Writes an outcome: the queue to the arrays, and the answer's fields as numbers. It gives the answer's number.
pub fn write_outcome(
    modes: &mut [u8; 32],
    s: &mut [u64; 32],
    x: &mut [u64; 32],
    kept: &mut [u64; 3],
    fields: &mut [u64; 4],
    outcome: LockOutcome,
) -> u8
    ensures { arrays_of outcome.answer (state outcome.queue)
        ≡ record { number = result; fields = fields.new; modes = modes.new; s = s.new; x = x.new; kept = kept.new } }
{
    store(modes, s, x, kept, outcome.queue);
    let given = outcome.answer;
    write_answer(fields, given);
    given.number
}
