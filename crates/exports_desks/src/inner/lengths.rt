// The length of a text that a desk shows, as a plain number.
ghost use Rattle.std.specs.Prelude.{◌≡◌, length};
ghost use Rattle.desk_shows.specs.Show.{held_text, shown_number, shown_part};

use desk_shows::Asked;

// How many bytes of the text a desk shows, in the language that the caller names.
pub fn length_shown<'a>(
    original: &'a [u8],
    translation: &'a [u8],
    original_length: u64,
    translation_length: u64,
    edition: u16,
    from: u16,
    asked: Asked,
    number: &mut u8,
) -> u64
    ensures number { number.new ≡ shown_number (held_text original.now original_length) (held_text translation.now translation_length) edition from asked }
    ensures count { result ≡ length (shown_part (held_text original.now original_length) (held_text translation.now translation_length) edition from asked) }
{
    let part = desk_shows::shown(
        original,
        translation,
        original_length as usize,
        translation_length as usize,
        edition,
        from,
        asked,
        number,
    );
    part.len() as u64
}
