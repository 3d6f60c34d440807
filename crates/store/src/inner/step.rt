ghost use Rattle.std.specs.Prelude.{◌≡◌, true, ◌<◌, length};
ghost use Rattle.commands.specs.Command.{update, well_formed};
ghost use Rattle.formats.specs.Format.{format_of, translations};
ghost use Rattle.image.specs.Bytes.{count_of};
ghost use Rattle.image.specs.Image.{sound};
ghost use Rattle.store.specs.inner.Carried.{carried};
ghost use Rattle.store.specs.Runs.{numbers_of, ServesTo};

use crate::inner::effects;
use commands::Command;
use commands::formed::Formed;
use formats::Version;
use guard::{Answer, Judged};
use numbers::{ACCEPTED, MALFORMED, NO_CARD, UNSOUND, number_of};
use stamps::Pair;

// A command for an existing card, on a sound image: its entry judges, and an accepted command is carried out.
pub fn carry_formed(
    v: Version,
    image: &mut [u8],
    formed: Formed,
    text: &[u8],
    reply: &mut [u8],
) -> Answer
    requires { (sound (format_of v) image.old ≡ true) × (formed.command.card < count_of image.old) × (formed.command.language < translations (format_of v))
        × (length text.now ≡ formed.command.length) }
    ensures answer { result ≡ (carried (format_of v) image.old formed.command text.now reply.old).answer }
    ensures image { image.new ≡ (carried (format_of v) image.old formed.command text.now reply.old).image }
    ensures reply { reply.new ≡ (carried (format_of v) image.old formed.command text.now reply.old).reply }
{
    let c = formed.command;
    let e = image::inner::read::entry_at(v, image, c.card, c.language);
    let outcome = e.outcome(formed, image::inner::read::room(image), reply.len());
    if outcome.is_err() {
        let number = number_of(outcome);
        return guard::reply(Judged { number, entry: e }, c);
    }
    let effect = effects::act(v, image, c, formed.pair, e, text, reply);
    image::inner::write::store_stamps(v, image, c.card, effect.entry);
    guard::inner::told(ACCEPTED, effect.entry, effect.length)
}

// The same by a command's numbers, of which the caller knows that it keeps its rules, and its update pair `new`.
pub fn carry(
    v: Version,
    image: &mut [u8],
    c: Command,
    new: Pair,
    text: &[u8],
    reply: &mut [u8],
) -> Answer
    requires { (sound (format_of v) image.old ≡ true) × (c.card < count_of image.old) × (c.language < translations (format_of v))
        × (length text.now ≡ c.length) × (well_formed c ≡ true) × (new ≡ update c) }
    ensures answer { result ≡ (carried (format_of v) image.old c text.now reply.old).answer }
    ensures image { image.new ≡ (carried (format_of v) image.old c text.now reply.old).image }
    ensures reply { reply.new ≡ (carried (format_of v) image.old c text.now reply.old).reply }
{
    let formed = Formed {
        command: c,
        pair: new,
    };
    carry_formed(v, image, formed, text, reply)
}

// One request on a sound image of a version, which it keeps sound.
#[tactic(auto, using(commands::proofs::CommandBytes::fixed_in, commands::proofs::CommandBytes::language_within, commands::proofs::CommandBytes::length_payload, formats::proofs::Numbers::numbers))]
pub fn serve(v: Version, image: &mut [u8], command: &[u8], reply: &mut [u8]) -> Answer
    requires { sound (format_of v) image.old ≡ true }
    ensures served { ServesTo (format_of v) image.old command.now reply.old (numbers_of result) image.new reply.new }
    ensures kept { sound (format_of v) image.new ≡ true }
{
    let Some(formed) = commands::inner::formed(v, command) else {
        return guard::refusal(MALFORMED);
    };
    if image::inner::read::count(image) <= formed.command.card {
        return guard::refusal(NO_CARD);
    }
    let start = v.layout().fixed;
    carry_formed(v, image, formed, &command[start..], reply)
}

// One request on an image that has been checked: `checked` says whether it is sound, and does so still of what the request leaves.
// Kept: the flag beside the image: a type of both would hold the lent image, which each step writes, and each write would owe the type's fact anew.
pub fn judge(
    v: Version,
    image: &mut [u8],
    command: &[u8],
    reply: &mut [u8],
    checked: bool,
) -> Answer
    requires { checked ≡ sound (format_of v) image.old }
    ensures served { ServesTo (format_of v) image.old command.now reply.old (numbers_of result) image.new reply.new }
    ensures kept { checked ≡ sound (format_of v) image.new }
{
    if !checked {
        return guard::refusal(UNSOUND);
    }
    serve(v, image, command, reply)
}
