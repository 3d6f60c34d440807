// The image: the bytes of a store's cards. When bytes are a sound image, and a fresh one.
#![tactic(auto)]

pub mod inner;

ghost use Rattle.std.specs.Prelude.{◌≡◌, length};
ghost use Rattle.image.specs.Image.{sound, front_of, make_number, fresh};
ghost use Rattle.image.specs.Convert.{converted, convert_number};
ghost use Rattle.lists.specs.Table.{settled};
ghost use Rattle.formats.specs.Format.{format_of};
ghost use Rattle.numbers.specs.Refusals.{number_of};

use formats::Version;
use numbers::Refusal;
use numbers::Refusal::{NotMade, Unsound};

// ---- The image: the bytes of a store's cards.

// The limits: N is 1 to MOST_CARDS, C is LEAST_ROOM to MOST_ROOM in steps of ROOM_STEP, the whole is at most MOST_BYTES.
pub const MOST_CARDS: usize = 128;

pub const LEAST_ROOM: usize = 16;

pub const MOST_ROOM: usize = 1024;

pub const ROOM_STEP: usize = 16;

pub const MOST_BYTES: usize = 65536;

// Whether any bytes are a sound image of a version.
pub fn sound(v: Version, image: &[u8]) -> bool
    ensures { result ≡ sound (format_of v) image.now }
{
    if image.len() < inner::layout::HEADER {
        return false;
    }
    if !inner::rules::header_sound(v, image) {
        return false;
    }
    for k in 0..inner::read::count(image) {
        if !inner::rules::card_sound(v, image, k) {
            return false;
        }
    }
    true
}

// ---- The image in front of some bytes, of version 1.

// The size of an image, how many cards it has, and the room that each of its texts has.
#[derive(Clone, Copy, PartialEq, Eq)]
pub struct Dimensions {
    pub size: usize,
    pub cards: u16,
    pub room: u16,
}

// The image in front of some bytes, as long as its header says; none where there is no whole header, no whole image, or none that is sound.
pub fn front(bytes: &[u8]) -> Option<Dimensions>
    ensures { result ≡ front_of bytes.now }
{
    if bytes.len() < inner::layout::HEADER {
        return None;
    }
    let cards = inner::read::count(bytes);
    let room = inner::read::room(bytes);
    let size = inner::layout::size_of(Version::V1, cards, room);
    let image = bytes.get(..size)?;
    if !sound(Version::V1, image) {
        return None;
    }
    Some(Dimensions { size, cards, room })
}

// ---- A fresh image.

// Makes a fresh image of a version; or refuses as not made, for N, C or a lent length that is against the rules, and writes nothing.
pub fn make(v: Version, image: &mut [u8], cards: usize, room: usize) -> Result<(), Refusal>
    ensures number { number_of result ≡ make_number (format_of v) cards room (length image.old) }
    ensures bytes { image.new
        ≡ settled (make_number (format_of v) cards room (length image.old)) (fresh (format_of v) cards room) image.old }
{
    if !inner::layout::shape_ok(v, cards, room) {
        return Err(NotMade);
    }
    let n = cards as u16;
    let c = room as u16;
    if image.len() != inner::layout::size_of(v, n, c) {
        return Err(NotMade);
    }
    inner::fresh::fill(v, image, n, c);
    Ok(())
}

// ---- From version 1 to version 2.

// Converts an image of version 1 into one of version 2 in the whole of target; or refuses as unsound or not made, and writes nothing.
pub fn convert(image: &[u8], target: &mut [u8]) -> Result<(), Refusal>
    ensures number { number_of result ≡ convert_number image.now (length target.old) }
    ensures bytes { target.new
        ≡ settled (convert_number image.now (length target.old)) (converted image.now) target.old }
{
    if !sound(Version::V1, image) {
        return Err(Unsound);
    }
    let n = inner::read::count(image);
    let c = inner::read::room(image);
    make(Version::V2, target, n as usize, c as usize)?;
    for k in 0..n {
        inner::convert::widen(image, target, k);
    }
    Ok(())
}
