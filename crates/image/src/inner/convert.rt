// One card of an image of version 1 written into one of version 2.
ghost use Rattle.std.specs.Prelude.{◌≡◌, suc, ◌+◌, ◌≤◌, ◌<◌, T, length};
ghost use Rattle.lists.specs.Parts.{part, splice};
ghost use Rattle.formats.specs.Format.{V1, V2};
ghost use Rattle.image.specs.Bytes.{count_of};
ghost use Rattle.image.specs.Image.{sound, encode};
ghost use Rattle.image.specs.Convert.{widened_up_to};

use crate::inner::{layout, read, write};
use formats::Version;

// Copies the `count` bytes at `from` to `to` of another image.
fn copy(image: &[u8], from: usize, count: usize, target: &mut [u8], to: usize)
    requires { (from + count ≤ length image.now) × (to + count ≤ length target.old) }
    ensures { target.new ≡ splice to (part from count image.now) target.old }
{
    slices::inner::put(target, to, &image[from..from + count]);
}

// Writes card k, behind cards that are written and before cards with nothing on them. Its two bodies stand side by side in either version. A call of its
// own, so that a conversion needs no more of the stack than the header says.
#[inline(never)]
pub fn widen(image: &[u8], target: &mut [u8], k: u16)
    requires { T (sound V1 image.now) × (k < count_of image.now) × (target.old ≡ encode V2 (widened_up_to k image.now)) }
    ensures { target.new ≡ encode V2 (widened_up_to (suc k) image.now) }
{
    let n = read::count(image);
    let c = read::room(image);
    let from = layout::body_place(Version::V1, n, c, k, 0);
    let to = layout::body_place(Version::V2, n, c, k, 0);
    let both = layout::sides(Version::V1) * (c as usize);
    let e = read::entry_at(Version::V1, image, k, 0);
    copy(image, from, both, target, to);
    write::store_entry(Version::V2, target, k, 0, e);
}
