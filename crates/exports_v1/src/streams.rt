// Streams of commands, for Rust and C.
ghost use Rattle.std.specs.Prelude.{◌≡◌};
ghost use Rattle.store.specs.Ran.{RunsTo};
ghost use Rattle.formats.specs.Format.{V1};
ghost use Rattle.stream.specs.Stream.{next_at, end_of, onward, is_whole};

use formats::Version;

// What stands at a place of a stream: true, and in `end` the place behind it, if a whole command does; else false, and the place itself.
#[unsafe(no_mangle)]
pub extern "C" fn lupaniele_next(stream: &[u8], at: u64, end: &mut u64) -> bool
    ensures whole { result ≡ is_whole (next_at V1 stream.now at) }
    ensures end { end.new ≡ onward at (next_at V1 stream.now at) }
{
    let next = stream::next_from(Version::V1, stream, at as usize);
    *end = next as u64;
    !(next == at as usize)
}

// The byte where the first command of a stream that is not whole begins, or the stream's end.
#[unsafe(no_mangle)]
pub extern "C" fn lupaniele_end(stream: &[u8]) -> u64
    ensures { result ≡ end_of V1 stream.now }
{
    stream::end_of(Version::V1, stream) as u64
}

// Judges the whole commands of a stream in their order, with the image checked once, until no whole command or no room for a line is left: how many there were,
// and in `end` the byte where it stopped. The number and the seven reply fields of each answer are written to `lines`, 8 numbers for each command.
#[unsafe(no_mangle)]
pub extern "C" fn lupaniele_run(
    image: &mut [u8],
    stream: &[u8],
    reply: &mut [u8],
    lines: &mut [u64],
    end: &mut u64,
) -> u64
    ensures { RunsTo V1 image.old stream.now reply.old lines.old
        (record { count = result; end = end.new }) image.new reply.new lines.new }
{
    let ran = store::run(Version::V1, image, stream, reply, lines);
    *end = ran.end as u64;
    ran.count as u64
}
