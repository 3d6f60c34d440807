pub mod fixed_width;

ghost use Rattle.std.specs.Prelude.{◌≡◌, ◌+◌, ◌^◌, ◌≤◌, ◌<◌, length, replicate};
ghost use Rattle.lists.specs.Parts.{part, splice};
ghost use Rattle.lists.specs.Le.{le, to_le};

// The number of `count` bytes, at most 8, that begin at `at`. Read from the last byte down.
pub fn read(s: &[u8], at: usize, count: usize) -> u64
    requires { (count ≤ 8) × (at + count ≤ length s.now) }
    ensures { (result ≡ le (part at count s.now)) × (result < 256 ^ count) }
{
    let mut sum: u64 = 0;
    for b in s[at..at + count].iter().rev() {
        sum = sum * 256 + (*b as u64);
    }
    sum
}

// Writes the lowest `count` bytes of `value`, lowest first, from `at` on.
pub fn write(s: &mut [u8], at: usize, count: usize, value: u64)
    requires { at + count ≤ length s.old }
    ensures { s.new ≡ splice at (to_le count value) s.old }
{
    let mut rest = value;
    for b in s[at..at + count].iter_mut() {
        *b = (rest % 256) as u8;
        rest /= 256;
    }
}

// Copies the whole of `v` into `s` from `at` on, byte after byte.
// Kept: no `copy_from_slice`, which is the C library's `memmove` and may begin anywhere: the stores of an append go by rising offset (rule 11.10).
pub fn put(s: &mut [u8], at: usize, v: &[u8])
    requires { at + length v.now ≤ length s.old }
    ensures { s.new ≡ splice at v.now s.old }
{
    for (i, b) in v.iter().enumerate() {
        s[at + i] = *b;
    }
}

// The most bytes that are copied at once.
const AT_ONCE: usize = 1024;

// Copies the whole of `v` into `s` from `at` on, as `put`, but for no more than 1,024 bytes: through a local array, of which the compiler makes one
// move of a block.
// Kept: of two lent slices the compiler does not know that they lie apart, so that `put` is a test of overlap with a loop of bytes and one of
// blocks, about 100 instructions; this is 16 and one move.
pub fn put_short(s: &mut [u8], at: usize, v: &[u8])
    requires { (length v.now ≤ 1024) × (at + length v.now ≤ length s.old) }
    ensures { s.new ≡ splice at v.now s.old }
{
    if v.len() == 0 {
        return;
    }
    let mut held = [0u8; AT_ONCE];
    put(&mut held, 0, v);
    put(s, at, &held[..v.len()]);
}

// Makes the `count` bytes from `at` on zero.
#[tactic(auto, using(crate::proofs::Written::written_part))]
pub fn clear(s: &mut [u8], at: usize, count: usize)
    requires { at + count ≤ length s.old }
    ensures { s.new ≡ splice at (replicate count 0) s.old }
{
    s[at..at + count].fill(0);
}
