// Little-endian numbers in byte slices, of any byte count and of the fixed widths, and the loops over parts of byte slices that the layers above share.
#![tactic(auto)]

pub mod inner;

ghost use Rattle.std.specs.Prelude.{◌≡◌};
ghost use Rattle.lists.specs.Parts.{zeros};

// ---- Little-endian numbers of any byte count in byte slices, and the loops over parts of byte slices that the layers above share.

// Whether every byte is zero. Every byte is looked at, so that the loop compiles to one over many bytes at a time.
#[tactic(auto, using(crate::proofs::Loops::zeros_more, crate::proofs::Loops::zeros_done))]
pub fn all_zero(s: &[u8]) -> bool
    ensures { result ≡ zeros s.now }
{
    let mut zero = true;
    for b in s {
        zero &= *b == 0;
    }
    zero
}
