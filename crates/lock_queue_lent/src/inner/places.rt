// Between lent places and a queue by value.
ghost use Rattle.std.specs.Prelude.{◌≡◌, length};
ghost use Rattle.lock_queue.specs.Queue.{state, most_places};
ghost use Rattle.lock_queue_lent.specs.Slice.{lent_state, written, loaded, reply_of};

use crate::{Kept, LentOutcome};
use lock_queue::{LockOutcome, MOST_PLACES, NO_WAITING, Places, Queue, Waiting};

// Writes entries over others, as far as both go.
fn write_over(onto: &mut [Waiting], from: &[Waiting])
    ensures { onto.new ≡ written (length onto.old) from.now onto.old }
{
    let n = onto.len().min(from.len());
    onto[..n].copy_from_slice(&from[..n]);
}

// The queue by value: of the lent places as many as there is room for.
pub fn load(places: &[Waiting], kept: Kept) -> Queue
    ensures { state result ≡ lent_state (loaded places.now) kept }
{
    let mut at = [NO_WAITING; MOST_PLACES];
    write_over(&mut at, places);
    Queue {
        places: Places { at },
        count: kept.count,
        largest: kept.largest,
    }
}

// The places of the queue as it now is, written over the lent ones; the answer, and what the queue now keeps.
pub fn store(places: &mut [Waiting], outcome: LockOutcome) -> LentOutcome
    ensures { (places.new ≡ written most_places outcome.queue.places.at places.old) × (result ≡ reply_of outcome) }
{
    write_over(places, &outcome.queue.places.at);
    LentOutcome {
        answer: outcome.answer,
        kept: Kept {
            count: outcome.queue.count,
            largest: outcome.queue.largest,
        },
    }
}
