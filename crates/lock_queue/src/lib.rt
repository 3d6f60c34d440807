// The lock queue of one card: desks ask for the lock and leave, or are taken out when they fell silent; each answer says whether the desk holds it.
#![tactic(auto)]

mod entries;
pub mod inner;
mod judge;
mod leases;
mod turns;

ghost use Rattle.std.specs.Prelude.{◌≡◌, replicate};
ghost use Rattle.lock_queue.specs.Queue.{state, empty_queue, most_places, no_waiting};
ghost use Rattle.lock_queue.specs.Requests.{asks, leaves, lapses, Turns};

use stamps::{NO_PAIR, Pair};
use turns::outcome;

// ---- The lock queue of one card as it stands: who stands in it, who holds the lock, and how many entries are looked at.

// The largest number of places that a queue can have.
pub const MOST_PLACES: usize = 32;

// An entry that waits for the lock: 1 shared or 2 exclusive, and the pair that its desk proposed.
// Kept: the mode is a number, as lent memory and an ask may hold any, which get 10 and 1 (`good` and `asking` of specs, `malformed_mode_unseen`).
#[derive(Clone, Copy)]
pub struct Waiting {
    pub mode: u8,
    pub pair: Pair,
}

// A place that holds nothing.
pub const NO_WAITING: Waiting = Waiting {
    mode: 0,
    pair: NO_PAIR,
};

// The places of a queue by value. How many of them are lent is told apart.
#[derive(Clone, Copy)]
pub struct Places {
    pub at: [Waiting; MOST_PLACES],
}

// A queue: its places, of which the first `count` are taken, and the largest stamps, s and x, that were accepted in it so far.
// Kept: an array and a count, since memory is fixed (no heap); `state` of specs reads both, and a count past the places is a bad queue (10).
#[derive(Clone, Copy)]
pub struct Queue {
    pub places: Places,
    pub count: usize,
    pub largest: Pair,
}

// The number, whether the desk holds the lock, the largest pair, and how many entries were looked at.
// Kept: the number stands beside the rest, as a refusal tells them too (`answered` of specs, rule 7.14).
#[derive(Clone, Copy)]
pub struct LockAnswer {
    pub number: u8,
    pub holds: bool,
    pub largest: Pair,
    pub looked: usize,
}

// An answer, and the queue as it now is.
#[derive(Clone, Copy)]
pub struct LockOutcome {
    pub answer: LockAnswer,
    pub queue: Queue,
}

// A lease term: its period, in seconds, and by how much two clocks may drift apart in one second.
#[derive(Clone, Copy)]
pub struct Lease {
    pub period: f64,
    pub drift: f64,
}

// A desk and start that is held failed since the time `begin`, its lease term, and the time now.
#[derive(Clone, Copy)]
pub struct LeaseExpiry {
    pub desk: u32,
    pub lease: Lease,
    pub begin: f64,
    pub now: f64,
}

// An empty queue (rule 7.3): no place is taken, and each holds nothing.
pub fn empty() -> Queue
    ensures { state result ≡ empty_queue (replicate most_places no_waiting) }
{
    Queue {
        places: Places {
            at: [NO_WAITING; 32],
        },
        count: 0,
        largest: NO_PAIR,
    }
}

// A desk asks for the lock, or, where it stands shared and asks for exclusive, upgrades its entry (rules 7.6 to 7.10). `lent` is the number of
// places that the queue was given; a queue of more than 32 is bad.
pub fn ask(queue: Queue, lent: usize, new: Waiting) -> LockOutcome
    ensures { Turns lent (state queue) (asks new) result.answer (state result.queue) }
{
    outcome(turns::asked(queue, lent, new), new.desk(), &queue)
}

// The desk and start `desk` leaves (rules 7.12 and 7.13).
pub fn leave(queue: Queue, lent: usize, desk: u32) -> LockOutcome
    ensures { Turns lent (state queue) (leaves desk) result.answer (state result.queue) }
{
    outcome(turns::left(queue, lent, desk), desk, &queue)
}

// A desk that fell silent leaves, once its lease is over (rules 13.1 to 13.6).
pub fn lapse(queue: Queue, lent: usize, expiry: LeaseExpiry) -> LockOutcome
    ensures { Turns lent (state queue) (lapses expiry) result.answer (state result.queue) }
{
    outcome(turns::lapsed(queue, lent, expiry), expiry.desk, &queue)
}
