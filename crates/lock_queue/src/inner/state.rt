// What the standing entries of a queue say of a desk.
ghost use Rattle.std.specs.Prelude.{◌≡◌};
ghost use Rattle.lock_queue.specs.Requests.{upgrading};
ghost use Rattle.lock_queue.specs.Queue.{desk, desks, place, stands, looked, no_exclusive, holds};

use crate::Waiting;
use stamps::{EXCLUSIVE, SHARED};

// The place where the desk first stands.
pub fn place(standing: &[Waiting], desk: u32) -> Option<usize>
    ensures { result ≡ place desk (desks standing.now) }
{
    standing.iter().position(|w| w.desk() == desk)
}

// Whether the desk stands.
pub fn stands(standing: &[Waiting], desk: u32) -> bool
    ensures { result ≡ stands desk (desks standing.now) }
{
    place(standing, desk).is_some()
}

// How many entries are looked at for the desk.
pub fn looked(standing: &[Waiting], desk: u32) -> usize
    ensures { result ≡ looked desk (desks standing.now) }
{
    match place(standing, desk) {
        Some(i) => i + 1,
        None => standing.len(),
    }
}

// Whether none of the entries is exclusive.
pub fn no_exclusive(entries: &[Waiting]) -> bool
    ensures { result ≡ no_exclusive entries.now }
{
    entries.iter().all(|w| w.mode != EXCLUSIVE)
}

// Whether the desk holds the lock.
pub fn holds(standing: &[Waiting], desk: u32) -> bool
    ensures { result ≡ holds desk standing.now }
{
    match place(standing, desk) {
        None => false,
        Some(i) if standing[i].mode == EXCLUSIVE => i == 0,
        Some(i) => no_exclusive(&standing[..i]),
    }
}

// Whether the ask is an upgrade: its desk stands shared, and its mode is exclusive.
pub fn upgrading(new: Waiting, standing: &[Waiting]) -> bool
    ensures { result ≡ upgrading new.mode (desk new) standing.now }
{
    match place(standing, new.desk()) {
        None => false,
        Some(i) => (new.mode == EXCLUSIVE) & (standing[i].mode == SHARED),
    }
}
