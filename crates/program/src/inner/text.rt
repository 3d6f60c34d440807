// Text as bytes: words, and numbers in decimal.
ghost use Rattle.std.specs.Prelude.{◌+◌, ◌≤◌, length};
ghost use Rattle.program.specs.Text.{decimal, spaced, most_digits};
ghost use Rattle.program.specs.inner.Put.{Put};

// How many digits a number of 64 bits has at most.
pub const MOST_DIGITS: usize = 20;

// Writes a text from `at` on, and hands back the place behind it.
pub fn put_text(out: &mut [u8], at: usize, text: &[u8]) -> usize
    requires { at + length text.now ≤ length out.old }
    ensures { Put at (length text.now) text.now out.old out.new result }
{
    slices::inner::put(out, at, text);
    at + text.len()
}

// Writes a number in decimal.
pub fn put_decimal(out: &mut [u8], at: usize, n: u64) -> usize
    requires { at + most_digits ≤ length out.old }
    ensures { Put at most_digits (decimal n) out.old out.new result }
{
    let mut digits = [0u8; MOST_DIGITS];
    let count = io::decimal(n, &mut digits);
    put_text(out, at, &digits[..count])
}

// Writes a number behind a space.
pub fn put_spaced(out: &mut [u8], at: usize, n: u64) -> usize
    requires { at + 1 + most_digits ≤ length out.old }
    ensures { Put at (1 + most_digits) (spaced n) out.old out.new result }
{
    let behind = put_text(out, at, b" ");
    put_decimal(out, behind, n)
}
