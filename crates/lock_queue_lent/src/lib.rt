// The lock queue of one card in lent memory, as a slice of waiting entries or (in `inner`) as arrays of numbers: it is loaded, judged by value, and stored back.
#![tactic(auto)]

pub mod inner;

ghost use Rattle.std.specs.Prelude.{length};
ghost use Rattle.lock_queue.specs.Requests.{asks, leaves, lapses, Turns};
ghost use Rattle.lock_queue_lent.specs.Slice.{lent_state};

use inner::places::{load, store};
use lock_queue::{LeaseExpiry, LockAnswer, Waiting};
use stamps::Pair;

// ---- Between lent places and places by value: a lent slice of waiting entries is loaded, and the queue as it then is stored back.

// What a queue keeps beside its places: how many of them are taken, and the largest stamps, s and x, that were accepted in it so far.
// Kept: a count beside lent places, which may hold any number; one past the places is a bad queue (10, `good` of specs).
#[derive(Clone, Copy)]
pub struct Kept {
    pub count: usize,
    pub largest: Pair,
}

// An answer, and what the queue now keeps.
#[derive(Clone, Copy)]
pub struct LentOutcome {
    pub answer: LockAnswer,
    pub kept: Kept,
}

// A desk asks for the lock in a queue of lent places. Where more than 32 are lent the queue is bad, whatever it holds.
pub fn ask(places: &mut [Waiting], kept: Kept, new: Waiting) -> LentOutcome
    ensures { Turns (length places.old) (lent_state places.old kept) (asks new) result.answer (lent_state places.new result.kept) }
{
    let outcome = lock_queue::ask(load(places, kept), places.len(), new);
    store(places, outcome)
}

// The desk and start `desk` leaves a queue of lent places.
pub fn leave(places: &mut [Waiting], kept: Kept, desk: u32) -> LentOutcome
    ensures { Turns (length places.old) (lent_state places.old kept) (leaves desk) result.answer (lent_state places.new result.kept) }
{
    let outcome = lock_queue::leave(load(places, kept), places.len(), desk);
    store(places, outcome)
}

// A desk that fell silent leaves a queue of lent places, once its lease is over.
pub fn lapse(places: &mut [Waiting], kept: Kept, expiry: LeaseExpiry) -> LentOutcome
    ensures { Turns (length places.old) (lent_state places.old kept) (lapses expiry) result.answer (lent_state places.new result.kept) }
{
    let outcome = lock_queue::lapse(load(places, kept), places.len(), expiry);
    store(places, outcome)
}
