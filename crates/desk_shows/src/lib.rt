// The text that a desk shows: a part of one of the two buffers that it lends, the one of the language asked for.
#![tactic(auto)]

ghost use Rattle.std.specs.Prelude.{◌≡◌, ◌≤◌, length, take};
ghost use Rattle.lists.specs.Table.{first, settled};
ghost use Rattle.numbers.specs.Refusals.{number_of};
ghost use Rattle.desk_shows.specs.Show.{held_text, of, behind_asked, show_rows, shown_number, shown_part};

use numbers::{Refusal, number_of};

// The languages that can be asked for.
#[derive(Clone, Copy)]
pub enum Asked {
    Original,
    Translation,
}

// Whether the translation is asked for and behind.
fn behind_asked(edition: u16, from: u16, asked: Asked) -> bool
    ensures { result ≡ behind_asked edition from asked }
{
    match asked {
        Asked::Original => false,
        Asked::Translation => guard::behind(edition, from),
    }
}

// Whether the text is shown: 8 if a length is beyond its buffer, else 6 if the translation is asked for and behind.
fn judged(beyond: bool, behind: bool) -> Result<(), Refusal>
    ensures { number_of result ≡ first (show_rows beyond behind) }
{
    if beyond {
        return Err(Refusal::ReplyShort);
    }
    if behind {
        return Err(Refusal::EditionWrong);
    }
    Ok(())
}

// The text in a buffer where nothing is refused, else nothing of it.
fn part_of<'a>(buffer: &'a [u8], count: usize, judged: Result<(), Refusal>) -> &'a [u8]
    requires { number_of judged ≡ 0 → count ≤ length buffer.now }
    ensures { (result.now ≡ take (settled (number_of judged) count 0) buffer.now) × (result.ref_ptr ≡ buffer.entry.ref_ptr) }
{
    match judged {
        Ok(()) => &buffer[..count],
        Err(_) => &buffer[..0],
    }
}

// The text that a desk shows, and the number by which nothing is shown: all at the desk's own word. The part, an empty one too, begins
// where the buffer of the language asked for begins.
// Kept: the number beside the part, not a Result, since a refusal hands back an empty part too (`place`, `part`: its place is promised); a length
// beside its buffer, not a shorter slice, since one beyond the buffer is answered with 8 (`show_rows`).
pub fn shown<'a>(
    original: &'a [u8],
    translation: &'a [u8],
    original_length: usize,
    translation_length: usize,
    edition: u16,
    from: u16,
    asked: Asked,
    number: &mut u8,
) -> &'a [u8]
    ensures number { number.new ≡ shown_number (held_text original.now original_length) (held_text translation.now translation_length) edition from asked }
    ensures part { result.now ≡ shown_part (held_text original.now original_length) (held_text translation.now translation_length) edition from asked }
    ensures place { result.ref_ptr ≡ of asked original.entry.ref_ptr translation.entry.ref_ptr }
{
    let beyond = (original.len() < original_length) | (translation.len() < translation_length);
    let given = judged(beyond, behind_asked(edition, from, asked));
    *number = number_of(given);
    match asked {
        Asked::Original => part_of(original, original_length, given),
        Asked::Translation => part_of(translation, translation_length, given),
    }
}
