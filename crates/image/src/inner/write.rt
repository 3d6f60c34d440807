// Writing an entry and a text into an image.
ghost use Rattle.std.specs.Prelude.{◌≡◌, ◌+◌, ◌≤◌, ◌<◌, length};
ghost use Rattle.lists.specs.Parts.{splice};
ghost use Rattle.formats.specs.Format.{format_of, translations, entry_size};
ghost use Rattle.image.specs.Layout.{entry_place, most_room};
ghost use Rattle.commands.specs.Bytes.{pair_bytes};
ghost use Rattle.image.specs.Bytes.{entry_mark};
ghost use Rattle.image.specs.inner.Write.{stamps_with, original_with, translation_with, entry_with, over_old};

use crate::inner::layout;
use formats::Version;
use guard::Entry;
use slices::inner::fixed_width as le;
use stamps::{Mark, Pair};

// Writes a pair at `at`: s u64, x u64.
fn write_pair(image: &mut [u8], at: usize, pair: Pair)
    requires { at + 16 ≤ length image.old }
    ensures { image.new ≡ splice at (pair_bytes pair) image.old }
{
    le::write_u64(image, at, pair.s);
    le::write_u64(image, at + 8, pair.x);
}

// Writes a commit mark at `at`: desk u16, zero u16, transaction u32.
fn write_mark(image: &mut [u8], at: usize, mark: Mark)
    requires { at + 8 ≤ length image.old }
    ensures { image.new ≡ splice at (entry_mark mark) image.old }
{
    le::write_u16(image, at, mark.desk);
    le::write_u16(image, at + 2, 0);
    le::write_u32(image, at + 4, mark.transaction);
}

// Writes the pair and the mark of the entry of card k.
pub fn store_stamps(v: Version, image: &mut [u8], k: u16, e: Entry)
    requires { entry_place (format_of v) k + entry_size (format_of v) ≤ length image.old }
    ensures { image.new ≡ stamps_with e (entry_place (format_of v) k) image.old }
{
    let at = layout::entry_place(v, k);
    write_pair(image, at, e.pair);
    write_mark(image, at + 16, e.mark);
}

// Writes its edition and its original's length.
pub fn store_original(v: Version, image: &mut [u8], k: u16, e: Entry)
    requires { entry_place (format_of v) k + entry_size (format_of v) ≤ length image.old }
    ensures { image.new ≡ original_with (format_of v) e (entry_place (format_of v) k) image.old }
{
    let at = layout::entry_place(v, k);
    let original = v.layout().original_at;
    le::write_u16(image, at + 24, e.edition);
    le::write_u16(image, at + original, e.original);
}

// Writes the edition that translation t was made from, and its length.
pub fn store_translation(v: Version, image: &mut [u8], k: u16, t: u8, e: Entry)
    requires { (entry_place (format_of v) k + entry_size (format_of v) ≤ length image.old) × (t < translations (format_of v)) }
    ensures { image.new ≡ translation_with (format_of v) t e (entry_place (format_of v) k) image.old }
{
    let at = layout::entry_place(v, k);
    let from = layout::from_place(v, t);
    let length = layout::length_place(v, t);
    le::write_u16(image, at + from, e.from);
    le::write_u16(image, at + length, e.translation);
}

// Writes the entry of card k, as seen in translation t.
pub fn store_entry(v: Version, image: &mut [u8], k: u16, t: u8, e: Entry)
    requires { (entry_place (format_of v) k + entry_size (format_of v) ≤ length image.old) × (t < translations (format_of v)) }
    ensures { image.new ≡ entry_with (format_of v) t e (entry_place (format_of v) k) image.old }
{
    store_stamps(v, image, k, e);
    store_original(v, image, k, e);
    store_translation(v, image, k, t, e);
}

// Writes a text at `at`, and makes zero what is left there of an old text of this length.
pub fn store_text(image: &mut [u8], at: usize, old: u16, text: &[u8])
    requires { (length text.now ≤ most_room) × (at + length text.now ≤ length image.old) × (at + old ≤ length image.old) }
    ensures { image.new ≡ splice at (over_old old text.now) image.old }
{
    let old = old as usize;
    slices::inner::put_short(image, at, text);
    if text.len() < old {
        slices::inner::clear(image, at + text.len(), old - text.len());
    }
}
