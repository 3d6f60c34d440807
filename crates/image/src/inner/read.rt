// What the bytes of an image say: N and C, an entry, a text.
ghost use Rattle.std.specs.Prelude.{◌≡◌, ◌+◌, ◌*◌, ◌≤◌, ◌<◌, length};
ghost use Rattle.lists.specs.Parts.{part, splice};
ghost use Rattle.formats.specs.Format.{format_of, translations, entry_size, original_at, froms_at, lengths_at};
ghost use Rattle.image.specs.Layout.{entry_place, most_room};
ghost use Rattle.image.specs.Bytes.{count_of, room_of, read_entry, entry_at};

use crate::inner::layout;
use crate::inner::layout::{CARDS_AT, ROOM_AT};
use formats::Version;
use guard::Entry;
use slices::inner::fixed_width as le;
use stamps::{Mark, Pair};

// Kept: two, each named for its number of the header; one would take the place as a parameter, and give a number without a name.
// N as the header says.
pub fn count(image: &[u8]) -> u16
    requires { 16 ≤ length image.now }
    ensures { result ≡ count_of image.now }
{
    le::read_u16(image, CARDS_AT)
}

// C as the header says.
pub fn room(image: &[u8]) -> u16
    requires { 16 ≤ length image.now }
    ensures { result ≡ room_of image.now }
{
    le::read_u16(image, ROOM_AT)
}

// The entry that an entry's bytes stand for, as seen in translation t.
fn entry_of(v: Version, bytes: &[u8], t: u8) -> Entry
    requires { (26 ≤ length bytes.now) × (original_at (format_of v) + 2 ≤ length bytes.now)
        × (froms_at (format_of v) + 2 * t + 2 ≤ length bytes.now) × (lengths_at (format_of v) + 2 * t + 2 ≤ length bytes.now) }
    ensures { result ≡ read_entry (format_of v) t bytes.now }
{
    Entry {
        pair: Pair {
            s: le::read_u64(bytes, 0),
            x: le::read_u64(bytes, 8),
        },
        mark: Mark {
            desk: le::read_u16(bytes, 16),
            transaction: le::read_u32(bytes, 20),
        },
        edition: le::read_u16(bytes, 24),
        from: le::read_u16(bytes, layout::from_place(v, t)),
        original: le::read_u16(bytes, v.layout().original_at),
        translation: le::read_u16(bytes, layout::length_place(v, t)),
    }
}

// The entry of card k, as seen in translation t.
pub fn entry_at(v: Version, image: &[u8], k: u16, t: u8) -> Entry
    requires { (entry_place (format_of v) k + entry_size (format_of v) ≤ length image.now) × (t < translations (format_of v)) }
    ensures { result ≡ entry_at (format_of v) image.now k t }
{
    let at = layout::entry_place(v, k);
    let end = at + v.layout().entry_size;
    entry_of(v, &image[at..end], t)
}

// The edition that translation t of card k was made from, and that translation's length, each read by itself.
// Kept: two, each named for its field. One for any place in an entry would leave to its callers which field stands there, and say a number of bytes alone.
pub fn from_at(v: Version, image: &[u8], k: u16, t: u8) -> u16
    requires { (entry_place (format_of v) k + entry_size (format_of v) ≤ length image.now) × (t < translations (format_of v)) }
    ensures { result ≡ (entry_at (format_of v) image.now k t).from }
{
    let at = layout::entry_place(v, k);
    le::read_u16(image, at + layout::from_place(v, t))
}

pub fn length_at(v: Version, image: &[u8], k: u16, t: u8) -> u16
    requires { (entry_place (format_of v) k + entry_size (format_of v) ≤ length image.now) × (t < translations (format_of v)) }
    ensures { result ≡ (entry_at (format_of v) image.now k t).translation }
{
    let at = layout::entry_place(v, k);
    le::read_u16(image, at + layout::length_place(v, t))
}

// Reads the `count` bytes at `at` into the first bytes of a reply buffer.
pub fn copy_text(image: &[u8], at: usize, count: u16, reply: &mut [u8])
    requires { (count ≤ most_room) × (at + count ≤ length image.now) × (count ≤ length reply.old) }
    ensures { reply.new ≡ splice 0 (part at count image.now) reply.old }
{
    let end = at + (count as usize);
    slices::inner::put_short(reply, 0, &image[at..end]);
}
