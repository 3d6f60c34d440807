ghost use Rattle.std.specs.Prelude.{◌≡◌, cond, ◌+◌, ◌≤◌, length, get_or};
ghost use Rattle.texts.specs.Text.{TextStep, Section};
ghost use Rattle.text_drops.specs.Drop.{near};
ghost use Rattle.texts.specs.inner.Walk.{drop_there, same, differ, TwoSections, TwoRuns, TwoSteps, SectionsWalked, RunsWalked, StepsWalked};

use crate::{DROP, WORDS};
use text_drops::Drop;

// Each walk of this file hands back the two places behind what was walked, or the unmatched place of the first text.

// The place in the first text at which it has a step without a match, or lacks one.
#[derive(Clone, Copy)]
pub struct UnmatchedAt {
    pub at: usize,
}

// The place behind the words that begin at a place.
fn behind_words(text: &[u8], at: usize) -> usize
    requires { at + 2 + get_or text.now (at + 1) 0 ≤ length text.now }
    ensures { result ≡ at + 2 + get_or text.now (at + 1) 0 }
{
    at + 2 + text[at + 1] as usize
}

// The drop that begins at a place.
fn drop_at(text: &[u8], at: usize) -> Drop
    requires { at + 4 ≤ length text.now }
    ensures { result ≡ drop_there text.now at }
{
    text_drops::inner::drop_of(
        text[at + 1],
        slices::inner::fixed_width::read_u16(text, at + 2),
    )
}

// Two drops.
fn degrees<'a>(a: &'a [u8], i: usize, b: &'a [u8], j: usize) -> Result<(usize, usize), UnmatchedAt>
    requires { (i + 4 ≤ length a.now) × (j + 4 ≤ length b.now) }
    ensures { result ≡ cond (near (drop_there a.now i) (drop_there b.now j)) (same (i + 4) (j + 4)) (differ i) }
{
    if text_drops::near(drop_at(a, i), drop_at(b, j)) {
        return Ok((i + 4, j + 4));
    }
    Err(UnmatchedAt { at: i })
}

// Two sections, with at most `nesting` sections within one another.
#[cycle(sections_step_steps)]
pub fn sections<'a>(
    a: &'a [u8],
    i: usize,
    b: &'a [u8],
    j: usize,
    nesting: usize,
) -> Result<(usize, usize), UnmatchedAt>
    requires { (s t : Section) × TwoSections a.now i b.now j nesting s t }
    ensures { SectionsWalked a.now i b.now j nesting result }
{
    steps(
        a,
        i + 2,
        a[i + 1] as usize,
        b,
        j + 2,
        b[j + 1] as usize,
        nesting - 1,
    )
}

// Two steps.
#[cycle(sections_step_steps)]
fn step<'a>(
    a: &'a [u8],
    i: usize,
    b: &'a [u8],
    j: usize,
    nesting: usize,
) -> Result<(usize, usize), UnmatchedAt>
    requires { (s t : TextStep) × TwoSteps a.now i b.now j nesting s t }
    ensures { StepsWalked a.now i b.now j nesting result }
{
    let kind = a[i];
    if kind != b[j] {
        return Err(UnmatchedAt { at: i });
    }
    if kind == WORDS {
        return Ok((behind_words(a, i), behind_words(b, j)));
    }
    if kind == DROP {
        return degrees(a, i, b, j);
    }
    sections(a, i + 1, b, j + 1, nesting)
}

// So many steps of each.
#[cycle(sections_step_steps)]
fn steps<'a>(
    a: &'a [u8],
    i: usize,
    many: usize,
    b: &'a [u8],
    j: usize,
    more: usize,
    nesting: usize,
) -> Result<(usize, usize), UnmatchedAt>
    requires { (s t : Section) × TwoRuns a.now i b.now j nesting many more s t }
    ensures { RunsWalked a.now i b.now j nesting many more result }
{
    let mut x = i;
    let mut y = j;
    for _ in 0..many.min(more) {
        (x, y) = step(a, x, b, y, nesting)?;
    }
    if many != more {
        return Err(UnmatchedAt { at: x });
    }
    Ok((x, y))
}
