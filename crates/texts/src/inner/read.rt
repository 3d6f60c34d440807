ghost use Rattle.std.specs.Prelude.{◌≡◌, ℕ, ◌+◌, ◌≤◌, length, get_or};
ghost use Rattle.texts.specs.inner.Read.{ReadsSection, ReadsStep, ReadsSteps};

use crate::{DROP, SECTION, SECTION_BEGINS, WORDS};
use text_drops::{CELSIUS, FAHRENHEIT};

// Each reader of this file hands back the place behind what stands at a place, or none where nothing well formed does.

// A step of words: a length and as many bytes.
fn words(text: &[u8], at: usize) -> Option<usize>
    requires { (at + 2 ≤ length text.now) × (get_or text.now at 0 ≡ 2) }
    ensures { (n : ℕ) → ReadsStep text.now at n result }
{
    let long = text[at + 1] as usize;
    if text.len() - (at + 2) < long {
        return None;
    }
    Some(at + 2 + long)
}

// A drop: a unit and tenths.
fn degrees(text: &[u8], at: usize) -> Option<usize>
    requires { (at + 2 ≤ length text.now) × (get_or text.now at 0 ≡ 3) }
    ensures { (n : ℕ) → ReadsStep text.now at n result }
{
    if text.len() - at < 4 {
        return None;
    }
    let unit = text[at + 1];
    if unit == CELSIUS {
        return Some(at + 4);
    }
    if unit == FAHRENHEIT {
        return Some(at + 4);
    }
    None
}

// A section at a place, with at most `nesting` sections within one another.
#[cycle(section_step_steps)]
pub fn section(text: &[u8], at: usize, nesting: usize) -> Option<usize>
    ensures { ReadsSection text.now at nesting result }
{
    if nesting == 0 {
        return None;
    }
    if text.len() <= at {
        return None;
    }
    if text.len() - at < 2 {
        return None;
    }
    if text[at] != SECTION_BEGINS {
        return None;
    }
    steps(text, at + 2, nesting - 1, text[at + 1] as usize)
}

// A step at a place.
#[cycle(section_step_steps)]
fn step(text: &[u8], at: usize, nesting: usize) -> Option<usize>
    ensures { ReadsStep text.now at nesting result }
{
    if text.len() <= at {
        return None;
    }
    if text.len() - at < 2 {
        return None;
    }
    let kind = text[at];
    if kind == WORDS {
        return words(text, at);
    }
    if kind == DROP {
        return degrees(text, at);
    }
    if kind == SECTION {
        return section(text, at + 1, nesting);
    }
    None
}

// So many steps at a place.
#[cycle(section_step_steps)]
fn steps(text: &[u8], at: usize, nesting: usize, count: usize) -> Option<usize>
    ensures { ReadsSteps text.now at nesting count result }
{
    let mut next = at;
    for _ in 0..count {
        next = step(text, next, nesting)?;
    }
    Some(next)
}
