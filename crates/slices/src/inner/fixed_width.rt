// Little-endian integers of the fixed widths: 16, 32 and 64 bits at a place in a byte slice.
// Kept: a function for each width, as the library has `from_le_bytes` and `to_le_bytes` for each type, and no trait over them; an impl of a trait for
// each type would have these bodies too.
ghost use Rattle.std.specs.Prelude.{◌≡◌, ◌+◌, ◌≤◌, length};
ghost use Rattle.lists.specs.Parts.{part, splice};
ghost use Rattle.lists.specs.Le.{le, to_le};

// The N bytes at a place.
#[tactic(auto, unfolding(lists::specs::Parts::part))]
fn bytes_at<const N: usize>(s: &[u8], at: usize) -> [u8; N]
    requires { at + N ≤ length s.now }
    ensures { result ≡ part at N s.now }
{
    let mut bytes = [0; N];
    bytes.copy_from_slice(&s[at..at + N]);
    bytes
}

#[tactic(auto, using(crate::proofs::Written::read_part_2))]
pub fn read_u16(s: &[u8], at: usize) -> u16
    requires { at + 2 ≤ length s.now }
    ensures { result ≡ le (part at 2 s.now) }
{
    u16::from_le_bytes(bytes_at(s, at))
}

#[tactic(auto, using(crate::proofs::Written::read_part_4))]
pub fn read_u32(s: &[u8], at: usize) -> u32
    requires { at + 4 ≤ length s.now }
    ensures { result ≡ le (part at 4 s.now) }
{
    u32::from_le_bytes(bytes_at(s, at))
}

#[tactic(auto, using(crate::proofs::Written::read_part_8))]
pub fn read_u64(s: &[u8], at: usize) -> u64
    requires { at + 8 ≤ length s.now }
    ensures { result ≡ le (part at 8 s.now) }
{
    u64::from_le_bytes(bytes_at(s, at))
}

#[tactic(auto, using(crate::proofs::Written::write_part_2))]
pub fn write_u16(s: &mut [u8], at: usize, value: u16)
    requires { at + 2 ≤ length s.old }
    ensures { s.new ≡ splice at (to_le 2 value) s.old }
{
    s[at..at + 2].copy_from_slice(&value.to_le_bytes());
}

#[tactic(auto, using(crate::proofs::Written::write_part_4))]
pub fn write_u32(s: &mut [u8], at: usize, value: u32)
    requires { at + 4 ≤ length s.old }
    ensures { s.new ≡ splice at (to_le 4 value) s.old }
{
    s[at..at + 4].copy_from_slice(&value.to_le_bytes());
}

#[tactic(auto, using(crate::proofs::Written::write_part_8))]
pub fn write_u64(s: &mut [u8], at: usize, value: u64)
    requires { at + 8 ≤ length s.old }
    ensures { s.new ≡ splice at (to_le 8 value) s.old }
{
    s[at..at + 8].copy_from_slice(&value.to_le_bytes());
}
