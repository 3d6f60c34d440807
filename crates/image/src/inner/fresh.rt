ghost use Rattle.std.specs.Prelude.{◌≡◌, ◌≤◌, length};
ghost use Rattle.lists.specs.Parts.{splice};
ghost use Rattle.image.specs.Bytes.{header_numbers};
ghost use Rattle.image.specs.Layout.{size_of};
ghost use Rattle.image.specs.Image.{fresh};
ghost use Rattle.formats.specs.Format.{format_of};

use crate::inner::layout::{CARDS_AT, MAGIC, ROOM_AT, VERSION_AT, ZEROS_AT};
use formats::Version;
use slices::inner::fixed_width as le;

// Writes the numbers of a header.
fn write_header(v: Version, image: &mut [u8], n: u16, c: u16)
    requires { 16 ≤ length image.old }
    ensures { image.new ≡ splice 0 (header_numbers (format_of v) n c) image.old }
{
    let version = v.layout().version;
    le::write_u32(image, 0, MAGIC);
    le::write_u16(image, VERSION_AT, version);
    le::write_u16(image, CARDS_AT, n);
    le::write_u16(image, ROOM_AT, c);
}

// Writes a fresh image of a version, of n cards with room c.
pub fn fill(v: Version, image: &mut [u8], n: u16, c: u16)
    requires { length image.old ≡ size_of (format_of v) n c }
    ensures { image.new ≡ fresh (format_of v) n c }
{
    let size = image.len();
    write_header(v, image, n, c);
    slices::inner::clear(image, ZEROS_AT, size - ZEROS_AT);
}
