// Whether a request is accepted, and else why not.
ghost use Rattle.std.specs.Prelude.{◌≡◌};
ghost use Rattle.numbers.specs.Refusals.{number_of};
ghost use Rattle.lock_queue.specs.Queue.{state, desks};
ghost use Rattle.lock_queue.specs.Requests.{already, full, asks, leaves, lapses, number};
ghost use Rattle.lock_queue.specs.Lease.{valid_time};

use crate::inner::rules::good;
use crate::inner::state::{stands, upgrading};
use crate::{LeaseExpiry, Queue, Waiting};
use numbers::Refusal::{
    self, BadQueue, LeaseOutOfRange, LeaseRuns, Malformed, NotStanding, PairDenied, QueueFull,
    StandsAlready,
};

// Number 12's test.
fn already(upgrade: bool, standing: &[Waiting], desk: u32) -> bool
    ensures { result ≡ already upgrade desk (desks standing.now) }
{
    stands(standing, desk) & !upgrade
}

// Number 13's test.
fn full(upgrade: bool, lent: usize, count: usize) -> bool
    ensures { result ≡ full upgrade lent count }
{
    (count == lent) & !upgrade
}

// Whether the entry may join.
pub fn asking(queue: &Queue, lent: usize, new: Waiting) -> Result<(), Refusal>
    ensures { number_of result ≡ number lent (state queue.now) (asks new) }
{
    if !good(queue, lent) {
        return Err(BadQueue);
    }
    if !new.formed() {
        return Err(Malformed);
    }
    let standing = queue.standing();
    let upgrade = upgrading(new, standing);
    if already(upgrade, standing, new.desk()) {
        return Err(StandsAlready);
    }
    if stamps::stale(new.mode, queue.largest, new.pair) {
        return Err(PairDenied);
    }
    if full(upgrade, lent, queue.count) {
        return Err(QueueFull);
    }
    Ok(())
}

// Whether the desk may leave.
pub fn leaving(queue: &Queue, lent: usize, desk: u32) -> Result<(), Refusal>
    ensures { number_of result ≡ number lent (state queue.now) (leaves desk) }
{
    if !good(queue, lent) {
        return Err(BadQueue);
    }
    if !stands(queue.standing(), desk) {
        return Err(NotStanding);
    }
    Ok(())
}

// Whether a time is within its limits.
fn valid_time(time: f64) -> bool
    ensures { result ≡ valid_time time }
{
    (0.0 <= time) & (time <= 1000000000.0)
}

// Whether the silent desk may be taken out.
pub fn lapsing(queue: &Queue, lent: usize, expiry: LeaseExpiry) -> Result<(), Refusal>
    ensures { number_of result ≡ number lent (state queue.now) (lapses expiry) }
{
    if !good(queue, lent) {
        return Err(BadQueue);
    }
    let lease = expiry.lease;
    if !(lease.valid_term() & valid_time(expiry.begin) & valid_time(expiry.now)) {
        return Err(LeaseOutOfRange);
    }
    if !stands(queue.standing(), expiry.desk) {
        return Err(NotStanding);
    }
    if !lease.expired(expiry.begin, expiry.now) {
        return Err(LeaseRuns);
    }
    Ok(())
}
