// What an accepted command makes of a sound image and of the reply buffer.
ghost use Rattle.std.specs.Prelude.{◌≡◌, true, false, ◌<◌, ◌≤◌, length};
ghost use Rattle.lists.specs.Parts.{splice};
ghost use Rattle.commands.specs.Command.{update, well_formed};
ghost use Rattle.guard.specs.Judge.{editions_spent, raise};
ghost use Rattle.guard.specs.Replies.{read_length};
ghost use Rattle.formats.specs.Format.{format_of, translations};
ghost use Rattle.image.specs.Layout.{body_place};
ghost use Rattle.image.specs.Bytes.{count_of, room_of, entry_at};
ghost use Rattle.image.specs.Image.{card_at, sound};
ghost use Rattle.store.specs.inner.Carried.{act_written};
ghost use Rattle.store_model.specs.Serve.{text_read};

use commands::formed::Formed;
use commands::{Command, VERIFY};
use formats::Version;
use guard::Entry;
use stamps::Pair;

// Where a body of card k stands in a sound image.
fn body_at(v: Version, image: &[u8], k: u16, side: u8) -> usize
    requires { sound (format_of v) image.now ≡ true }
    ensures { result ≡ body_place (format_of v) (count_of image.now) (room_of image.now) k side }
{
    image::inner::layout::body_place(
        v,
        image::inner::read::count(image),
        image::inner::read::room(image),
        k,
        side,
    )
}

// What an accepted command comes to: the entry as it then is, and the length of the text that it reads, 0 if it reads none.
#[derive(Clone, Copy)]
pub struct Effect {
    pub entry: Entry,
    pub length: u16,
}

// The raised entry, with a length.
fn done(e: Entry, formed: Formed, length: u16) -> Effect
    requires { editions_spent e formed.command ≡ false }
    ensures { result ≡ record { entry = raise e formed.command; length = length } }
{
    let entry = e.raised(formed.command, formed.pair);
    Effect { entry, length }
}

// Carries out an accepted command, by its act: the text that it reads is copied into the first bytes of the reply buffer, and its payload is written over
// the text that it writes, with what the entry says of that text. `new` is its update pair, `e` the entry before; of the raised one the pair and the mark are not yet written.
pub fn act(
    v: Version,
    image: &mut [u8],
    c: Command,
    new: Pair,
    e: Entry,
    text: &[u8],
    reply: &mut [u8],
) -> Effect
    requires { (sound (format_of v) image.old ≡ true) × (c.card < count_of image.old) × (c.language < translations (format_of v))
        × (e ≡ entry_at (format_of v) image.old c.card c.language) × (read_length e c ≤ length reply.old) × (length text.now ≤ room_of image.old)
        × (editions_spent e c ≡ false) × (well_formed c ≡ true) × (new ≡ update c) }
    ensures told { result ≡ record { entry = raise e c; length = read_length e c } }
    ensures image { image.new ≡ act_written (format_of v) image.old c (raise e c) text.now }
    ensures reply { reply.new ≡ splice 0 (text_read (card_at (format_of v) image.old c.card) c) reply.old }
{
    let formed = Formed {
        command: c,
        pair: new,
    };
    if c.act == VERIFY {
        return done(e, formed, 0);
    }
    if c.reads_original() {
        let from = body_at(v, image, c.card, 0);
        image::inner::read::copy_text(image, from, e.original, reply);
        return done(e, formed, e.original);
    }
    if c.reads_translation() {
        let from = body_at(v, image, c.card, c.language + 1);
        image::inner::read::copy_text(image, from, e.translation, reply);
        return done(e, formed, e.translation);
    }
    if c.writes_original() {
        let at = body_at(v, image, c.card, 0);
        image::inner::write::store_text(image, at, e.original, text);
        let effect = done(e, formed, 0);
        image::inner::write::store_original(v, image, c.card, effect.entry);
        return effect;
    }
    let at = body_at(v, image, c.card, c.language + 1);
    image::inner::write::store_text(image, at, e.translation, text);
    let effect = done(e, formed, 0);
    image::inner::write::store_translation(v, image, c.card, c.language, effect.entry);
    effect
}
