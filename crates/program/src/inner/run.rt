// A run, line by line: the commands of a stream judged one after another on one image.
ghost use Rattle.std.specs.Prelude.{◌≡◌, true, ◌+◌, ◌≤◌, length};
ghost use Rattle.formats.specs.Format.{V1};
ghost use Rattle.image.specs.Image.{sound};
ghost use Rattle.program.specs.inner.Put.{Put};
ghost use Rattle.program.specs.Program.{printed, most_printed};

use crate::inner::lines;
use formats::Version;
use store::inner::run::{PER_LINE, many};

// Runs the stream on a sound image with room for one line at a time, and writes each line and the last one into `out` from `at` on. Hands back the place
// behind them.
pub fn put_printed(
    image: &mut [u8],
    stream: &[u8],
    reply: &mut [u8],
    out: &mut [u8],
    at: usize,
) -> usize
    requires { (sound V1 image.old ≡ true) × (at + most_printed stream.now ≤ length out.old) }
    ensures { Put at (most_printed stream.now) (printed image.old reply.old stream.now) out.old out.new result }
{
    let mut line = [0u64; PER_LINE];
    let mut from = 0;
    let mut place = 1;
    let mut to = at;
    // Kept: (d) a run finds each command itself; with a reader in front of it each would be looked for twice.
    let cut = loop {
        let ran = many(Version::V1, image, &stream[from..], reply, true, &mut line);
        if ran.count == 0 {
            break from;
        }
        to = lines::put_line(out, to, place, &line);
        place += 1;
        from += ran.end;
    };
    lines::put_last(out, to, (stream.len() - cut) as u64)
}
