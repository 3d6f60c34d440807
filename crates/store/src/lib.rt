// The store: one request on an image, and a run of a stream.
#![tactic(auto)]

pub mod inner;

ghost use Rattle.std.specs.Prelude.{◌∷◌};
ghost use Rattle.formats.specs.Format.{format_of};
ghost use Rattle.store.specs.Runs.{ServesTo};
ghost use Rattle.store.specs.Ran.{RunsTo};

use formats::Version;
use inner::run::PER_LINE;

// Kept: the number and seven fields as C has them, with a refusal too: `ServesTo` speaks of the eight numbers of an answer.
// One request: a command of a version judged on an image of that version. It gives the number and the seven reply fields, and leaves the image and
// the reply buffer as the rules say; every refusal leaves both as they were.
#[tactic(auto, using(crate::proofs::Line::line_numbers), unfolding(crate::specs::Runs::numbers_of))]
pub fn answer(
    v: Version,
    image: &mut [u8],
    command: &[u8],
    reply: &mut [u8],
    fields: &mut [u64; 7],
) -> u8
    ensures { ServesTo (format_of v) image.old command.now reply.old (result ∷ fields.new) image.new reply.new }
{
    let checked = image::sound(v, image);
    let mut line = [0u64; PER_LINE];
    inner::run::one(v, image, command, reply, checked, &mut line);
    fields.copy_from_slice(&line[1..]);
    line[0] as u8
}

// ---- A run: the commands of a stream judged one after another on one image.

// How many commands a run judged, and the byte of the stream where it stopped.
#[derive(Clone, Copy)]
pub struct Ran {
    pub count: usize,
    pub end: usize,
}

// Judges the whole commands of a stream of a version in their order, as `answer` does, with the image checked once. The number and the seven reply
// fields of each answer are written to `lines`, end to end; where no room is left for them the run stops, and can be gone on with from `end`.
pub fn run(v: Version, image: &mut [u8], stream: &[u8], reply: &mut [u8], lines: &mut [u64]) -> Ran
    ensures { RunsTo (format_of v) image.old stream.now reply.old lines.old result image.new reply.new lines.new }
{
    let checked = image::sound(v, image);
    inner::run::many(v, image, stream, reply, checked, lines)
}
