// Structured texts: whether bytes are one, and whether two texts say the same drops.
#![tactic(auto)]

pub mod inner;

ghost use Rattle.std.specs.Prelude.{◌≡◌, true, ◌↔◌};
ghost use Rattle.texts.specs.Text.{WellFormedText};
ghost use Rattle.texts.specs.Agree.{Compared, differing, told};

use inner::walk::UnmatchedAt;

// How deep sections nest at most, the outer one counted.
pub const DEEPEST: usize = 8;

// The byte that a section begins with.
pub const SECTION_BEGINS: u8 = 1;

// Kept: any byte may stand where a kind does, and the walk over two texts compares the bytes first: an enum would be made of each, with a case more.
// The kinds of steps, by the byte that each begins with.
pub const WORDS: u8 = 2;

pub const DROP: u8 = 3;

pub const SECTION: u8 = 4;

// Why two texts do not agree: the first is ill formed; the second is; or they differ, at a place in the first.
#[derive(Clone, Copy)]
pub enum Disagreement {
    FirstIll,
    SecondIll,
    Unmatched(usize),
}

impl From<UnmatchedAt> for Disagreement {
    ghost from_gives = { λ unmatched d. d ≡ differing unmatched };

    fn from(unmatched: UnmatchedAt) -> Disagreement {
        Disagreement::Unmatched(unmatched.at)
    }
}

// Whether the bytes are a well formed text, with none left over.
pub fn well_formed(text: &[u8]) -> bool
    ensures { (result ≡ true) ↔ WellFormedText text.now }
{
    match inner::read::section(text, 0, DEEPEST) {
        Some(next) => next == text.len(),
        None => false,
    }
}

// Compares two texts.
pub fn compare<'a>(first: &'a [u8], second: &'a [u8]) -> Result<(), Disagreement>
    ensures { Compared first.now second.now (told result) }
{
    if !well_formed(first) {
        return Err(Disagreement::FirstIll);
    }
    if !well_formed(second) {
        return Err(Disagreement::SecondIll);
    }
    inner::walk::sections(first, 0, second, 0, DEEPEST)?;
    Ok(())
}
