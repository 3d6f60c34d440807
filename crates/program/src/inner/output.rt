// The whole output: the image in front of the input taken apart from the stream, and the three cases.
ghost use Rattle.std.specs.Prelude.{◌≤◌, length, take, drop, replicate};
ghost use Rattle.program.specs.inner.Put.{Put};
ghost use Rattle.program.specs.Program.{printed, most_printed, output_of, most_output};
ghost use Rattle.program.specs.inner.Ready.{Ready};

use crate::inner::text::put_text;
use crate::inner::{lines, run};

// How long the input may be.
pub const MOST_INPUT: usize = 65536;

// The lines of the stream behind an image of `size` bytes with this room: as `put_printed`, on a copy of the image and a reply buffer of zeros.
pub fn answers(input: &[u8], size: usize, room: usize, out: &mut [u8], at: usize) -> usize
    requires { Ready input.now size room out.old at }
    ensures { Put at (most_printed (drop size input.now))
        (printed (take size input.now) (replicate room 0) (drop size input.now)) out.old out.new result }
{
    let mut image = [0u8; image::MOST_BYTES];
    let mut reply = [0u8; image::MOST_ROOM];
    slices::inner::put(&mut image, 0, &input[..size]);
    run::put_printed(
        &mut image[..size],
        &input[size..],
        &mut reply[..room],
        out,
        at,
    )
}

// The whole output for an input, into the first bytes of `out`.
pub fn write(input: &[u8], out: &mut [u8]) -> usize
    requires { most_output ≤ length out.old }
    ensures { Put 0 most_output (output_of input.now) out.old out.new result }
{
    if MOST_INPUT < input.len() {
        return put_text(out, 0, b"too long\n");
    }
    let Some(front) = image::front(input) else {
        return put_text(out, 0, b"bad store\n");
    };
    let lines = lines::put_first(out, 0, front.cards as u64);
    answers(input, front.size, front.room as usize, out, lines)
}
