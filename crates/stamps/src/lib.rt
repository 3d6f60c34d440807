// Stamps, pairs of stamps and commit marks: what a session is named by, when a pair is stale or too far ahead, and what the stored pair becomes.
#![tactic(auto)]

ghost use Rattle.std.specs.Prelude.{◌≡◌, max};
ghost use Rattle.lists.specs.Table.{all};
ghost use Rattle.stamps.specs.Stamp.{stamp_valid, own, desk_of, session_checks, stale, stamp_too_far, too_far, larger_of_each, mark_whole, mark_fits};

// Two stamps, s for shared and x for exclusive (Minuet: a session identifier). Zero means none.
#[derive(Clone, Copy, PartialEq, Eq)]
pub struct Pair {
    pub s: u64,
    pub x: u64,
}

// The pair of two stamps that are none.
pub const NO_PAIR: Pair = Pair { s: 0, x: 0 };

// A commit mark (Minuet: a commit session identifier). Both zero means none.
#[derive(Clone, Copy, PartialEq, Eq)]
pub struct Mark {
    pub desk: u16,
    pub transaction: u32,
}

// The mark of a card that bears none.
pub const NO_MARK: Mark = Mark {
    desk: 0,
    transaction: 0,
};

// The modes.
// Kept: a mode is a byte of a command or of a request, and may be any number: `session_ok` answers for each, and the guard answers a command of another mode with 1.
pub const SHARED: u8 = 1;

pub const EXCLUSIVE: u8 = 2;

// A stamp is T.desk.start: 32, 16 and 16 bits, T highest. So many numbers a start, a desk, and a desk with its start have.
pub const STARTS: u64 = 65536;

const DESKS: u64 = 65536;

pub const DESK_STARTS: u64 = 4294967296;

// The most by which the T of a stamp may be above the T of the stored one.
const MOST_AHEAD: u64 = 1000000;

// Whether a stamp is valid: zero, or one with a desk of at least 1.
pub fn stamp_valid(n: u64) -> bool
    ensures { result ≡ stamp_valid n }
{
    (n == 0) | !(n / STARTS % DESKS == 0)
}

// The mode's own stamp: x if exclusive, else s.
fn own_stamp(mode: u8, pair: Pair) -> u64
    ensures { result ≡ own mode pair }
{
    if mode == EXCLUSIVE {
        return pair.x;
    }
    pair.s
}

// The desk and the start of the mode's own stamp, its low 32 bits.
pub fn desk_of(mode: u8, pair: Pair) -> u32
    ensures { result ≡ desk_of mode pair }
{
    (own_stamp(mode, pair) % DESK_STARTS) as u32
}

// Whether a mode and a pair keep the rules for sessions: by the mode, so that the own stamp is known.
pub fn session_ok(mode: u8, pair: Pair) -> bool
    ensures { result ≡ all (session_checks mode pair) }
{
    if mode == EXCLUSIVE {
        return stamp_valid(pair.s) & stamp_valid(pair.x) & !(pair.x == 0);
    }
    (mode == SHARED) & stamp_valid(pair.s) & stamp_valid(pair.x) & !(pair.s == 0)
}

// Whether a pair is stale against the stored one. Equal is not stale.
pub fn stale(mode: u8, stored: Pair, new: Pair) -> bool
    ensures { result ≡ stale mode stored new }
{
    (new.x < stored.x) | ((mode == EXCLUSIVE) & (new.s < stored.s))
}

// Whether a stamp is too far ahead of the stored one, by their T alone.
fn stamp_too_far(stored: u64, new: u64) -> bool
    ensures { result ≡ stamp_too_far stored new }
{
    stored / DESK_STARTS + MOST_AHEAD < new / DESK_STARTS
}

// Whether a stamp of a pair is too far ahead of the stored one on its side.
pub fn too_far(stored: Pair, new: Pair) -> bool
    ensures { result ≡ too_far stored new }
{
    stamp_too_far(stored.s, new.s) | stamp_too_far(stored.x, new.x)
}

// Whether both numbers of a commit mark are zero, or neither is.
pub fn mark_whole(m: Mark) -> bool
    ensures { result ≡ mark_whole m }
{
    (m.desk == 0) == (m.transaction == 0)
}

// Whether the expected commit mark passes the stored one: the same desk, and no lower transaction.
pub fn mark_fits(stored: Mark, expected: Mark) -> bool
    ensures { result ≡ mark_fits stored expected }
{
    (expected.desk == stored.desk) & (stored.transaction <= expected.transaction)
}

// The larger of two stamps.
pub fn larger(a: u64, b: u64) -> u64
    ensures { result ≡ max a b }
{
    a.max(b)
}

// The larger of each stamp of two pairs.
pub fn larger_of_each(old: Pair, new: Pair) -> Pair
    ensures { result ≡ larger_of_each old new }
{
    Pair {
        s: larger(old.s, new.s),
        x: larger(old.x, new.x),
    }
}
