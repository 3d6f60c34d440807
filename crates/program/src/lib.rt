// The program's whole output for an input, as bytes in a lent buffer.
#![tactic(auto)]

pub mod inner;

ghost use Rattle.std.specs.Prelude.{◌≡◌, length};
ghost use Rattle.lists.specs.Parts.{splice};
ghost use Rattle.program.specs.Program.{output_within};

// As many bytes as the output for the longest input can have: a line for each of 1,260 commands, the first line and the last, of 189 bytes each.
pub const MOST_OUTPUT: usize = 238518;

// Writes the whole output for an input into the first bytes of `out`, and hands back how many they are. Where `out` has fewer than `MOST_OUTPUT`
// bytes, nothing is written, and it hands back 0; no output is empty.
pub fn output(input: &[u8], out: &mut [u8]) -> usize
    ensures count { result ≡ length (output_within (length out.old) input.now) }
    ensures out { out.new ≡ splice 0 (output_within (length out.old) input.now) out.old }
{
    if out.len() < MOST_OUTPUT {
        return 0;
    }
    inner::output::write(input, out)
}
