// A run: the one loop that every command goes through, one alone too.
ghost use Rattle.std.specs.Prelude.{◌≡◌, ◌+◌, ◌≤◌, length};
ghost use Rattle.lists.specs.Parts.{splice};
ghost use Rattle.formats.specs.Format.{format_of};
ghost use Rattle.guard.specs.Replies.{reply_fields};
ghost use Rattle.image.specs.Image.{sound};
ghost use Rattle.store.specs.Runs.{numbers_of, per_line, ServesTo};
ghost use Rattle.store.specs.Ran.{RunsTo};

use crate::Ran;
use crate::inner::step;
use formats::Version;
use guard::Answer;
use numbers::{MALFORMED, UNSOUND};

// How many numbers an answer has: its number and seven fields.
pub const PER_LINE: usize = 8;

// The seven reply fields of an answer, as numbers.
pub fn fields_of(a: Answer) -> [u64; 7]
    ensures { result ≡ reply_fields a }
{
    let pair = a.pair;
    let mark = a.mark;
    [
        pair.s,
        pair.x,
        mark.desk as u64,
        mark.transaction as u64,
        a.edition as u64,
        a.from as u64,
        a.length as u64,
    ]
}

// The numbers of an answer: its number, then its seven fields.
#[tactic(auto, unfolding(crate::specs::Runs::numbers_of))]
fn numbers_of(a: Answer) -> [u64; PER_LINE]
    ensures { result ≡ numbers_of a }
{
    let mut numbers = [a.number as u64; PER_LINE];
    numbers[1..].copy_from_slice(&fields_of(a));
    numbers
}

// Writes the numbers of an answer into `lines` from `at` on.
#[tactic(auto, using(crate::proofs::Line::written_line))]
fn put_line(lines: &mut [u64], at: usize, a: Answer)
    requires { at + per_line ≤ length lines.old }
    ensures { lines.new ≡ splice at (numbers_of a) lines.old }
{
    lines[at..at + PER_LINE].copy_from_slice(&numbers_of(a));
}

// Judges the whole commands of a stream in their order, on an image that has been checked, as long as there is room for the numbers of their answers.
pub fn many(
    v: Version,
    image: &mut [u8],
    stream: &[u8],
    reply: &mut [u8],
    checked: bool,
    lines: &mut [u64],
) -> Ran
    requires { checked ≡ sound (format_of v) image.old }
    ensures ran { RunsTo (format_of v) image.old stream.now reply.old lines.old result image.new reply.new lines.new }
    ensures kept { checked ≡ sound (format_of v) image.new }
{
    // Kept: a loop with two ends, of which either may come first: a reader would give a command for which there is no room left, and `Ran` tells the place in front of it.
    let room = lines.len() / PER_LINE;
    let mut at = 0;
    let mut count = 0;
    loop {
        if room <= count {
            break Ran { count, end: at };
        }
        let Some(size) = stream::next_at(v, &stream[at..], 0) else {
            break Ran { count, end: at };
        };
        let end = at + size;
        let answer = step::judge(v, image, &stream[at..end], reply, checked);
        put_line(lines, count * PER_LINE, answer);
        count += 1;
        at = end;
    }
}

// ---- One request.

// One request on an image that has been checked, as a run of one command; bytes of another length are malformed. The numbers of its answer are written
// to `line`.
pub fn one(
    v: Version,
    image: &mut [u8],
    command: &[u8],
    reply: &mut [u8],
    checked: bool,
    line: &mut [u64],
)
    requires { (checked ≡ sound (format_of v) image.old) × (length line.old ≡ per_line) }
    ensures served { ServesTo (format_of v) image.old command.now reply.old line.new image.new reply.new }
    ensures kept { checked ≡ sound (format_of v) image.new }
{
    let end = stream::next_from(v, command, 0);
    if (end == command.len()) & !(end == 0) {
        many(v, image, command, reply, checked, line);
        return;
    }
    if checked {
        put_line(line, 0, guard::refusal(MALFORMED));
        return;
    }
    put_line(line, 0, guard::refusal(UNSOUND));
}
