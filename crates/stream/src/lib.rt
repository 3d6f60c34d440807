// A stream: commands end to end, and a reader of it, which has the lent stream and a place in it.
#![tactic(auto)]

ghost use Rattle.std.specs.Prelude.{◌≡◌};
ghost use Rattle.std.specs.Iterator.{item_count};
ghost use Rattle.formats.specs.Format.{format_of};
ghost use Rattle.stream.specs.Stream.{next_at, onward, end_of, begun, unread, Gives};

use commands::LENGTH;
use formats::Version;
use slices::inner::fixed_width::read_u16;

// ---- A stream: commands end to end.

// What stands at any place of a stream of a version's commands, also at one beyond the end: a whole command, and the place behind it; or none that is whole.
pub fn next_at(v: Version, stream: &[u8], at: usize) -> Option<usize>
    ensures { result ≡ next_at (format_of v) stream.now at }
{
    let left = stream.len().checked_sub(at)?;
    let fixed = v.layout().fixed;
    let room = left.checked_sub(fixed)?;
    let payload = read_u16(stream, at + LENGTH) as usize;
    if room < payload {
        return None;
    }
    Some(at + fixed + payload)
}

// One step of a walk that has come to any place: it goes on behind the whole command there; where none is whole it stays.
pub fn next_from(v: Version, stream: &[u8], at: usize) -> usize
    ensures { result ≡ onward at (next_at (format_of v) stream.now at) }
{
    next_at(v, stream, at).unwrap_or(at)
}

// ---- A reader of a version's commands: the lent stream, and a place in it.

// A reader: the version, the lent stream, and the place that it has come to.
#[derive(Clone, Copy)]
pub struct Reader<'a> {
    pub version: Version,
    pub stream: &'a [u8],
    pub at: usize,
}

impl<'a> Reader<'a> {
    // A reader at the stream's first byte.
    pub fn new(version: Version, stream: &'a [u8]) -> Reader<'a>
        ensures { result ≡ begun version stream.entry }
    {
        Reader {
            version,
            stream,
            at: 0,
        }
    }
}

// The items are the whole commands from the reader's place on.
impl<'a> Iterator for Reader<'a> {
    type Item = &'a [u8];

    ghost next_gives = { Gives };

    ghost remaining = { item_count unread };

    // The next command: the reader moves on behind it, and so the command is what lies between the two places. Where none is whole it stays.
    fn next(&mut self) -> Option<&'a [u8]> {
        let at = self.at;
        self.at = next_at(self.version, self.stream, at)?;
        Some(&self.stream[at..self.at])
    }
}

// ---- The walk to the end.

// The byte where the first command of a version that is not whole begins, or the stream's end.
// Kept: from place to place, and no sum over a reader: the compiler does not see that the sum is the reader's place, and an edit of where the walk
// begins (`walk_from_one`) is one number here.
pub fn end_of(v: Version, stream: &[u8]) -> usize
    ensures { result ≡ end_of (format_of v) stream.now }
{
    let mut at = 0;
    while let Some(end) = next_at(v, stream, at) {
        at = end;
    }
    at
}
