// Sizes and places in an image of each version: numbers alone.
ghost use Rattle.std.specs.Prelude.{◌≡◌, ◌+◌, ◌*◌};
ghost use Rattle.image.specs.Layout.{sides, size_of, shape_ok, entry_place, entry_end, body_place};
ghost use Rattle.formats.specs.Format.{format_of, froms_at, lengths_at};

use crate::{LEAST_ROOM, MOST_BYTES, MOST_CARDS, MOST_ROOM, ROOM_STEP};
use formats::Version;

// The size of the header.
pub const HEADER: usize = 16;

// Where the header has its version, its N and its C, and where its zeros begin.
pub const VERSION_AT: usize = 4;

pub const CARDS_AT: usize = 6;

pub const ROOM_AT: usize = 8;

pub const ZEROS_AT: usize = 10;

// The header's first bytes: 52 43 31 00.
pub const MAGIC: u32 = 0x0031_4352;

// How many bodies a card has.
pub fn sides(v: Version) -> usize
    ensures { result ≡ sides (format_of v) }
{
    let count = v.layout().translations;
    1 + (count as usize)
}

// Kept: two, each named for its field, as the definitions `froms_at` and `lengths_at` are; one would take the field as a parameter at each call.
// Where an entry has the edition that translation t was made from, and that translation's length.
pub fn from_place(v: Version, t: u8) -> usize
    ensures { result ≡ froms_at (format_of v) + 2 * t }
{
    v.layout().froms_at + 2 * (t as usize)
}

pub fn length_place(v: Version, t: u8) -> usize
    ensures { result ≡ lengths_at (format_of v) + 2 * t }
{
    v.layout().lengths_at + 2 * (t as usize)
}

// Where the numbers of an entry end in it.
pub fn entry_end(v: Version) -> usize
    ensures { result ≡ entry_end (format_of v) }
{
    length_place(v, v.layout().translations)
}

// The length of an image of n cards with room c.
pub fn size_of(v: Version, n: u16, c: u16) -> usize
    ensures { result ≡ size_of (format_of v) n c }
{
    let entry = v.layout().entry_size;
    let sides = sides(v);
    HEADER + entry * (n as usize) + sides * (c as usize) * (n as usize)
}

// Whether N and C are within the limits.
pub fn shape_ok(v: Version, n: usize, c: usize) -> bool
    ensures { result ≡ shape_ok (format_of v) n c }
{
    if MOST_CARDS < n {
        return false;
    }
    if MOST_ROOM < c {
        return false;
    }
    (1 <= n)
        & (LEAST_ROOM <= c)
        & (c % ROOM_STEP == 0)
        & (size_of(v, n as u16, c as u16) <= MOST_BYTES)
}

// Where the entry of card k stands.
pub fn entry_place(v: Version, k: u16) -> usize
    ensures { result ≡ entry_place (format_of v) k }
{
    let entry = v.layout().entry_size;
    HEADER + entry * (k as usize)
}

// Where the body of a side of card k stands, of n cards with room c: side 0 is the original, side t + 1 is translation t.
pub fn body_place(v: Version, n: u16, c: u16, k: u16, side: u8) -> usize
    ensures { result ≡ body_place (format_of v) n c k side }
{
    let entry = v.layout().entry_size;
    let sides = sides(v);
    HEADER + entry * (n as usize) + (sides * (k as usize) + (side as usize)) * (c as usize)
}
