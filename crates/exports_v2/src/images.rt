// Images of version 2, for Rust and C: made, looked at, and one request on one.
ghost use Rattle.std.specs.Prelude.{◌≡◌, ◌∷◌, length};
ghost use Rattle.formats.specs.Format.{V2};
ghost use Rattle.lists.specs.Table.{settled};
ghost use Rattle.image.specs.Image.{sound, make_number, fresh};
ghost use Rattle.store.specs.Runs.{ServesTo};

use formats::Version;
use numbers::number_of;

// Makes a fresh image of version 2, of `cards` cards with room `room`: 0, or 14 and nothing written.
#[unsafe(no_mangle)]
pub extern "C" fn lupaniele_make_v2(image: &mut [u8], cards: u64, room: u64) -> u8
    ensures number { result ≡ make_number V2 cards room (length image.old) }
    ensures bytes { image.new
        ≡ settled (make_number V2 cards room (length image.old)) (fresh V2 cards room) image.old }
{
    number_of(image::make(Version::V2, image, cards as usize, room as usize))
}

// Whether the lent bytes are a sound image of version 2.
#[unsafe(no_mangle)]
pub extern "C" fn lupaniele_sound_v2(image: &[u8]) -> bool
    ensures { result ≡ sound V2 image.now }
{
    image::sound(Version::V2, image)
}

// One request of version 2 on an image of version 2, answered as `lupaniele_answer` answers one of version 1.
#[unsafe(no_mangle)]
pub extern "C" fn lupaniele_answer_v2(
    image: &mut [u8],
    command: &[u8],
    reply: &mut [u8],
    fields: &mut [u64; 7],
) -> u8
    ensures { ServesTo V2 image.old command.now reply.old (result ∷ fields.new) image.new reply.new }
{
    store::answer(Version::V2, image, command, reply, fields)
}
