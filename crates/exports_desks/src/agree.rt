// Structured texts for Rust and C.
ghost use Rattle.std.specs.Prelude.{◌≡◌};
ghost use Rattle.texts.specs.Agree.{Compared, verdict, told};

use numbers::Refusal;
use texts::Disagreement;

// The number of an answer.
fn number_of(answer: Result<(), Disagreement>) -> u8
    ensures { result ≡ (told answer).number }
{
    match answer {
        Ok(()) => 0,
        Err(Disagreement::FirstIll) => Refusal::FirstIll as u8,
        Err(Disagreement::SecondIll) => Refusal::SecondIll as u8,
        Err(Disagreement::Unmatched(_)) => Refusal::Unmatched as u8,
    }
}

// The place of an answer.
fn place_of(answer: Result<(), Disagreement>) -> u64
    ensures { result ≡ (told answer).place }
{
    match answer {
        Err(Disagreement::Unmatched(at)) => at as u64,
        _ => 0,
    }
}

// Whether two structured texts say the same drops: 0; or 18 if the first is ill formed, 19 if the second is, 20 if they differ. `place` is then the byte of the
// first text where they differ, and with every other number 0.
#[unsafe(no_mangle)]
pub extern "C" fn lupaniele_agree<'a>(first: &'a [u8], second: &'a [u8], place: &mut u64) -> u8
    ensures { Compared first.now second.now (verdict result place.new) }
{
    let answer = texts::compare(first, second);
    *place = place_of(answer);
    number_of(answer)
}
