// The smallest stamp of a desk and start above a number.
ghost use Rattle.std.specs.Prelude.{◌≡◌, ◌≤◌};
ghost use Rattle.desk_proposals.specs.Propose.{next_t, own_above, last_t};

use stamps::{DESK_STARTS, STARTS};

// Its T.
pub fn next_t(desk: u16, start: u16, n: u64) -> u64
    ensures { result ≡ next_t desk start n }
{
    let t = n / DESK_STARTS;
    if n < t * DESK_STARTS + desk as u64 * STARTS + start as u64 {
        return t;
    }
    t + 1
}

// The stamp, where its T fits.
pub fn own_above(desk: u16, start: u16, n: u64) -> u64
    requires { next_t desk start n ≤ last_t }
    ensures { result ≡ own_above desk start n }
{
    next_t(desk, start, n) * DESK_STARTS + desk as u64 * STARTS + start as u64
}
