// What a desk shows, for Rust and C.
// Kept: a length beside each buffer, a number for the language and one for a refusal, as C lends and reads them (lupaniele_shown).
ghost use Rattle.std.specs.Prelude.{◌≡◌};
ghost use Rattle.desk_shows.specs.Show.{held_text};
ghost use Rattle.exports_desks.specs.Numbers.{asked_of, asked_number, shown_length};

use crate::inner::lengths::length_shown;
use desk_shows::Asked;

// The language by its number.
fn language(asked: u8) -> Asked
    ensures { result ≡ asked_of asked }
{
    if asked == 0 {
        return Asked::Original;
    }
    Asked::Translation
}

// The text that a desk shows, all at its own word: 0, and in `count` how many first bytes of the buffer asked for are the text; or a number
// and no bytes. `asked` is 0 for the original and 1 for the translation; any other gets 1.
#[unsafe(no_mangle)]
pub extern "C" fn lupaniele_shown<'a>(
    original: &'a [u8],
    translation: &'a [u8],
    original_length: u64,
    translation_length: u64,
    edition: u16,
    from: u16,
    asked: u8,
    count: &mut u64,
) -> u8
    ensures number { result ≡ asked_number (held_text original.now original_length) (held_text translation.now translation_length) edition from asked }
    ensures count { count.new ≡ shown_length (held_text original.now original_length) (held_text translation.now translation_length) edition from asked }
{
    if 1 < asked {
        *count = 0;
        return numbers::MALFORMED;
    }
    let mut number: u8 = 0;
    *count = length_shown(
        original,
        translation,
        original_length,
        translation_length,
        edition,
        from,
        language(asked),
        &mut number,
    );
    number
}
