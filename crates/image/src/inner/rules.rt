ghost use Rattle.std.specs.Prelude.{◌≡◌, ◌+◌, ◌-◌, ◌≤◌, ◌<◌, ◌&&◌, T, eqb, length};
ghost use Rattle.lists.specs.Parts.{part, zeros, every};
ghost use Rattle.lists.specs.Le.{field};
ghost use Rattle.formats.specs.Format.{format_of, translations, entry_size};
ghost use Rattle.image.specs.Bytes.{count_of, room_of, entry_at};
ghost use Rattle.image.specs.Layout.{size_of, entry_place, entry_end};
ghost use Rattle.image.specs.Image.{header_sound, translation_sound, card_sound};
ghost use Rattle.image.specs.inner.Tests.{text_tests, front_tests, card_tests};
ghost use Rattle.stamps.specs.Stamp.{mark_whole};

use crate::inner::layout::{HEADER, MAGIC, VERSION_AT, ZEROS_AT};
use crate::inner::{layout, read};
use formats::Version;
use guard::Entry;
use slices::inner::fixed_width as le;
use stamps::Mark;

// Whether a text keeps the rules: its length, and the edition that it was made from, by the original's edition and the room. One from no edition is
// empty, and so fits. Test by test, here and for a card: that is quicker than all answers at once.
fn text_sound(edition: u16, from: u16, count: u16, room: u16) -> bool
    ensures { result ≡ text_tests edition from count room }
{
    if from == 0 {
        return count == 0;
    }
    if edition < from {
        return false;
    }
    count <= room
}

// Whether an entry keeps the rules of its stamps and of its original, where texts have this room. An original counts as made from its own edition.
fn front_sound(e: Entry, room: u16) -> bool
    ensures { result ≡ front_tests room e }
{
    if !stamps::stamp_valid(e.pair.s) {
        return false;
    }
    if !stamps::stamp_valid(e.pair.x) {
        return false;
    }
    text_sound(e.edition, e.edition, e.original, room)
}

// Whether the bytes of a body past its text are zero.
fn tail_zero(image: &[u8], at: usize, count: u16, room: u16) -> bool
    requires { (count ≤ room) × (at + room ≤ length image.now) }
    ensures { result ≡ zeros (part (at + count) (room - count) image.now) }
{
    let start = at + (count as usize);
    let end = at + (room as usize);
    slices::all_zero(&image[start..end])
}

// Whether the header keeps the rules of a version.
pub fn header_sound(v: Version, image: &[u8]) -> bool
    requires { 16 ≤ length image.now }
    ensures { result ≡ header_sound (format_of v) image.now }
{
    let n = read::count(image);
    let c = read::room(image);
    (le::read_u32(image, 0) == MAGIC)
        & (le::read_u16(image, VERSION_AT) == v.layout().version)
        & layout::shape_ok(v, n as usize, c as usize)
        & slices::all_zero(&image[ZEROS_AT..HEADER])
        & (image.len() == layout::size_of(v, n, c))
}

// Whether the mark in an entry's bytes is whole, and the field between its numbers zero. Mostly there is none: its eight bytes are zero.
fn mark_in(bytes: &[u8]) -> bool
    requires { 24 ≤ length bytes.now }
    ensures { result ≡ mark_whole (record { desk = field 16 2 bytes.now; transaction = field 20 4 bytes.now })
        && eqb (field 18 2 bytes.now) 0 }
{
    if le::read_u64(bytes, 16) == 0 {
        return true;
    }
    let mark = Mark {
        desk: le::read_u16(bytes, 16),
        transaction: le::read_u32(bytes, 20),
    };
    stamps::mark_whole(mark) & (le::read_u16(bytes, 18) == 0)
}

// The same of card k's entry.
fn mark_sound(v: Version, image: &[u8], k: u16) -> bool
    requires { entry_place (format_of v) k + entry_size (format_of v) ≤ length image.now }
    ensures { result ≡ mark_whole (entry_at (format_of v) image.now k 0).mark
        && eqb (field (entry_place (format_of v) k + 18) 2 image.now) 0 }
{
    let at = layout::entry_place(v, k);
    let end = at + v.layout().entry_size;
    mark_in(&image[at..end])
}

// Whether what stands behind the numbers of card k's entry is zero.
fn blank_zero(v: Version, image: &[u8], k: u16) -> bool
    requires { entry_place (format_of v) k + entry_size (format_of v) ≤ length image.now }
    ensures { result ≡ zeros (part (entry_place (format_of v) k + entry_end (format_of v)) (entry_size (format_of v) - entry_end (format_of v)) image.now) }
{
    let at = layout::entry_place(v, k);
    let start = at + layout::entry_end(v);
    let end = at + v.layout().entry_size;
    slices::all_zero(&image[start..end])
}

// Whether the entry of card k keeps the rules as seen in translation t, and that translation's body too; it keeps those of its card.
fn translation_sound(v: Version, image: &[u8], k: u16, t: u8, edition: u16) -> bool
    requires { (length image.now ≡ size_of (format_of v) (count_of image.now) (room_of image.now)) × (k < count_of image.now) × (t < translations (format_of v))
        × (edition ≡ (entry_at (format_of v) image.now k 0).edition) × T (card_tests (room_of image.now) (entry_at (format_of v) image.now k 0)) }
    ensures { result ≡ translation_sound (format_of v) image.now k t }
{
    let n = read::count(image);
    let c = read::room(image);
    let from = read::from_at(v, image, k, t);
    let count = read::length_at(v, image, k, t);
    if !text_sound(edition, from, count, c) {
        return false;
    }
    tail_zero(image, layout::body_place(v, n, c, k, t + 1), count, c)
}

// Whether card k keeps the rules in every translation; its entry keeps those of its card.
fn translations_sound(v: Version, image: &[u8], k: u16, edition: u16) -> bool
    requires { (length image.now ≡ size_of (format_of v) (count_of image.now) (room_of image.now)) × (k < count_of image.now)
        × (edition ≡ (entry_at (format_of v) image.now k 0).edition) × T (card_tests (room_of image.now) (entry_at (format_of v) image.now k 0)) }
    ensures { result ≡ every (translation_sound (format_of v) image.now k) (translations (format_of v)) }
{
    for t in 0..v.layout().translations {
        if !translation_sound(v, image, k, t, edition) {
            return false;
        }
    }
    true
}

// Whether card k keeps the rules. What does not go by the translation is read and tested once.
pub fn card_sound(v: Version, image: &[u8], k: u16) -> bool
    requires { (length image.now ≡ size_of (format_of v) (count_of image.now) (room_of image.now)) × (k < count_of image.now) }
    ensures { result ≡ card_sound (format_of v) image.now k }
{
    let n = read::count(image);
    let c = read::room(image);
    let e = read::entry_at(v, image, k, 0);
    if !front_sound(e, c) {
        return false;
    }
    if !mark_sound(v, image, k) {
        return false;
    }
    if !blank_zero(v, image, k) {
        return false;
    }
    if !tail_zero(image, layout::body_place(v, n, c, k, 0), e.original, c) {
        return false;
    }
    translations_sound(v, image, k, e.edition)
}
