// Images, for Rust and C: made, looked at, one request on one, and one of version 2 made of one.
ghost use Rattle.std.specs.Prelude.{◌≡◌, ◌∷◌, length};
ghost use Rattle.formats.specs.Format.{V1};
ghost use Rattle.lists.specs.Table.{settled};
ghost use Rattle.image.specs.Image.{sound, make_number, fresh};
ghost use Rattle.image.specs.Convert.{converted, convert_number};
ghost use Rattle.store.specs.Runs.{ServesTo};

use formats::Version;
use numbers::number_of;

// Makes a fresh image of `cards` cards with room `room`: 0, or 14 and nothing written.
#[unsafe(no_mangle)]
pub extern "C" fn lupaniele_make(image: &mut [u8], cards: u64, room: u64) -> u8
    ensures number { result ≡ make_number V1 cards room (length image.old) }
    ensures bytes { image.new
        ≡ settled (make_number V1 cards room (length image.old)) (fresh V1 cards room) image.old }
{
    number_of(image::make(Version::V1, image, cards as usize, room as usize))
}

// Whether the lent bytes are a sound image.
#[unsafe(no_mangle)]
pub extern "C" fn lupaniele_sound(image: &[u8]) -> bool
    ensures { result ≡ sound V1 image.now }
{
    image::sound(Version::V1, image)
}

// One request on an image. The answer's number is returned and its seven reply fields are written to `fields`; the text of an accepted read
// stands in the first bytes of `reply`.
#[unsafe(no_mangle)]
pub extern "C" fn lupaniele_answer(
    image: &mut [u8],
    command: &[u8],
    reply: &mut [u8],
    fields: &mut [u64; 7],
) -> u8
    ensures { ServesTo V1 image.old command.now reply.old (result ∷ fields.new) image.new reply.new }
{
    store::answer(Version::V1, image, command, reply, fields)
}

// Converts an image of version 1 into one of version 2 in the whole of target: 0, or 9 or 14 and nothing written.
#[unsafe(no_mangle)]
pub extern "C" fn lupaniele_convert(image: &[u8], target: &mut [u8]) -> u8
    ensures number { result ≡ convert_number image.now (length target.old) }
    ensures bytes { target.new
        ≡ settled (convert_number image.now (length target.old)) (converted image.now) target.old }
{
    number_of(image::convert(image, target))
}
