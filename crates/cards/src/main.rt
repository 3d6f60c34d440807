// The program: an image and a stream of commands from standard input, an answer to each on standard output.
#![tactic(auto)]

ghost use Rattle.std.specs.Prelude.{◌≡◌, ◌≤◌, length};
ghost use Rattle.program.specs.Program.{output_of};

use program::MOST_OUTPUT;
use std::io;
use std::io::{Print, Read};

// One byte more than an input may have, to tell that it is longer.
const READ_AT_MOST: usize = 65537;

// Reads until the buffer is full or the input ends, and hands back how many bytes it put in front. A read that fails ends the input.
fn read_full<R: Read>(from: &mut R, into: &mut [u8]) -> usize
    ensures { result ≤ length into.new }
{
    // Kept: (d) `read_exact` does not tell how many bytes there were, `read_to_end` wants a heap, and both ask again where a read was interrupted.
    let mut done = 0;
    while done < into.len() {
        match from.read(&mut into[done..]) {
            Ok(0) | Err(_) => break,
            Ok(count) => done += count,
        }
    }
    done
}

// Prints a text that is the whole output for the input.
fn print<P: Print>(to: &P, input: &[u8], text: &[u8]) -> io::Result<()>
    requires { text.now ≡ output_of input.now }
{
    to.write_all(text)
}

// Where a write fails it ends as where none does: the rules have no other status.
fn main(rt: HostRuntime) {
    let mut input = [0u8; READ_AT_MOST];
    let mut out = [0u8; MOST_OUTPUT];
    let got = read_full(&mut rt.stdin(), &mut input);
    let count = program::output(&input[..got], &mut out);
    let _ = print(&rt, &input[..got], &out[..count]);
}
