// Streams of commands of version 2, for Rust and C.
ghost use Rattle.std.specs.Prelude.{◌≡◌};
ghost use Rattle.store.specs.Ran.{RunsTo};
ghost use Rattle.formats.specs.Format.{V2};
ghost use Rattle.stream.specs.Stream.{next_at, end_of, onward, is_whole};

use formats::Version;

// What stands at a place of a stream: true, and in `end` the place behind it, if a whole command does; else false, and the place itself.
#[unsafe(no_mangle)]
pub extern "C" fn lupaniele_next_v2(stream: &[u8], at: u64, end: &mut u64) -> bool
    ensures whole { result ≡ is_whole (next_at V2 stream.now at) }
    ensures end { end.new ≡ onward at (next_at V2 stream.now at) }
{
    let next = stream::next_from(Version::V2, stream, at as usize);
    *end = next as u64;
    !(next == at as usize)
}

// The byte where the first command of a stream that is not whole begins, or the stream's end.
#[unsafe(no_mangle)]
pub extern "C" fn lupaniele_end_v2(stream: &[u8]) -> u64
    ensures { result ≡ end_of V2 stream.now }
{
    stream::end_of(Version::V2, stream) as u64
}

// A run of a stream of version 2 on an image of version 2, as `lupaniele_run` does one of version 1.
#[unsafe(no_mangle)]
pub extern "C" fn lupaniele_run_v2(
    image: &mut [u8],
    stream: &[u8],
    reply: &mut [u8],
    lines: &mut [u64],
    end: &mut u64,
) -> u64
    ensures { RunsTo V2 image.old stream.now reply.old lines.old
        (record { count = result; end = end.new }) image.new reply.new lines.new }
{
    let ran = store::run(Version::V2, image, stream, reply, lines);
    *end = ran.end as u64;
    ran.count as u64
}
