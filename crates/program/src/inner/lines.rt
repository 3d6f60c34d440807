// The lines of the program's output. Each function writes one from `at` on, and hands back the place behind it.
ghost use Rattle.std.specs.Prelude.{◌≡◌, ◌+◌, ◌*◌, ◌≤◌, length};
ghost use Rattle.lists.specs.Parts.{concat_map};
ghost use Rattle.program.specs.Program.{line_by, first_line, last_line, most_line};
ghost use Rattle.store.specs.Runs.{per_line};
ghost use Rattle.program.specs.Text.{spaced, most_digits};
ghost use Rattle.program.specs.inner.Put.{Put};

use crate::inner::text::{put_decimal, put_spaced, put_text};

// The numbers of an answer's line, each behind a space.
fn put_numbers(out: &mut [u8], at: usize, numbers: &[u64]) -> usize
    requires { (at + per_line * (1 + most_digits) ≤ length out.old) × (length numbers.now ≡ per_line) }
    ensures { Put at (per_line * (1 + most_digits)) (concat_map spaced numbers.now) out.old out.new result }
{
    let mut to = at;
    for n in numbers {
        to = put_spaced(out, to, *n);
    }
    to
}

// The line of an answer: the command's place, then the answer's numbers.
pub fn put_line(out: &mut [u8], at: usize, place: u64, numbers: &[u64]) -> usize
    requires { (at + most_line ≤ length out.old) × (length numbers.now ≡ per_line) }
    ensures { Put at most_line (line_by place numbers.now) out.old out.new result }
{
    let behind = put_decimal(out, at, place);
    let end = put_numbers(out, behind, numbers);
    put_text(out, end, b"\n")
}

// The first line: how many cards the image has.
pub fn put_first(out: &mut [u8], at: usize, cards: u64) -> usize
    requires { at + most_line ≤ length out.old }
    ensures { Put at most_line (first_line cards) out.old out.new result }
{
    let number = put_text(out, at, b"cards");
    let end = put_spaced(out, number, cards);
    put_text(out, end, b"\n")
}

// The last line: `end`, or `cut` and how many bytes no command took.
pub fn put_last(out: &mut [u8], at: usize, left: u64) -> usize
    requires { at + most_line ≤ length out.old }
    ensures { Put at most_line (last_line left) out.old out.new result }
{
    if left == 0 {
        return put_text(out, at, b"end\n");
    }
    let number = put_text(out, at, b"cut");
    let end = put_spaced(out, number, left);
    put_text(out, end, b"\n")
}
