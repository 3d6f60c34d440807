// The program's whole output, for Rust and C.
ghost use Rattle.std.specs.Prelude.{◌≡◌, length};
ghost use Rattle.lists.specs.Parts.{splice};
ghost use Rattle.program.specs.Program.{output_within};

// Writes what the program prints for an input into the first bytes of `out`, and hands back how many they are; 0, and nothing written, where `out`
// has fewer bytes than the longest output, 238,518.
#[unsafe(no_mangle)]
pub extern "C" fn lupaniele_output(input: &[u8], out: &mut [u8]) -> u64
    ensures count { result ≡ length (output_within (length out.old) input.now) }
    ensures out { out.new ≡ splice 0 (output_within (length out.old) input.now) out.old }
{
    program::output(input, out) as u64
}
