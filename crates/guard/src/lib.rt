// The guard of one card: an entry that judges a command, and what is answered, a number and the seven reply fields.
#![tactic(auto)]

pub mod entries;
pub mod inner;

ghost use Rattle.std.specs.Prelude.{◌≡◌};
ghost use Rattle.guard.specs.Judge.{behind};
ghost use Rattle.guard.specs.Replies.{blank_reply, read_length, replied, refused};
ghost use Rattle.lists.specs.Table.{settled};

use commands::Command;
use numbers::{ACCEPTED, MALFORMED, NO_CARD, UNSOUND};
use stamps::{Mark, NO_MARK, NO_PAIR, Pair};

// Whether a translation is behind: it was made from no edition, or from another than the one that stands.
pub fn behind(edition: u16, from: u16) -> bool
    ensures { result ≡ behind edition from }
{
    (from == 0) | (from != edition)
}

// What the store keeps of one card beside its texts (Minuet: a guard's state for a shared resource): the largest pair accepted, the
// commit mark, the edition of the original, the edition that the translation was made from, and the lengths of the two texts.
#[derive(Clone, Copy)]
pub struct Entry {
    pub pair: Pair,
    pub mark: Mark,
    pub edition: u16,
    pub from: u16,
    pub original: u16,
    pub translation: u16,
}

// The entry of a card for which nothing was accepted.
pub const NO_ENTRY: Entry = Entry {
    pair: NO_PAIR,
    mark: NO_MARK,
    edition: 0,
    from: 0,
    original: 0,
    translation: 0,
};

// The number that an entry gives, and the entry as it now is.
// Kept: the entry stands beside a refusal too, and the definition `judged` speaks of the number.
#[derive(Clone, Copy)]
pub struct Judged {
    pub number: u8,
    pub entry: Entry,
}

// ---- What is answered: a number and the seven reply fields.

// A number and the seven reply fields.
// Kept: the fields stand beside a refusal too, and the definition `replied` speaks of the number, as C has it.
#[derive(Clone, Copy)]
pub struct Answer {
    pub number: u8,
    pub pair: Pair,
    pub mark: Mark,
    pub edition: u16,
    pub from: u16,
    pub length: u16,
}

// The length of the text that the command reads, 0 if it reads none.
fn read_length(e: Entry, c: Command) -> u16
    ensures { result ≡ read_length e c }
{
    if c.reads_original() {
        return e.original;
    }
    if c.reads_translation() {
        return e.translation;
    }
    0
}

// The length field: that of the text where a read is accepted, and 0 with every other answer.
#[tactic(auto, using(lists::proofs::Table::settled_new, lists::proofs::Table::settled_old))]
fn length(judged: Judged, c: Command) -> u16
    ensures { result ≡ settled judged.number (read_length judged.entry c) 0 }
{
    if judged.number == ACCEPTED {
        return read_length(judged.entry, c);
    }
    0
}

// Whether the number's reply fields are zeros.
fn is_blank(number: u8) -> bool
    ensures { result ≡ blank_reply number }
{
    matches!(number, UNSOUND | MALFORMED | NO_CARD)
}

// The answer of a number whose reply fields are zeros.
pub fn refusal(number: u8) -> Answer
    ensures { result ≡ refused number }
{
    Answer {
        number,
        pair: NO_PAIR,
        mark: NO_MARK,
        edition: 0,
        from: 0,
        length: 0,
    }
}

// The number with the seven reply fields: zeros for 9, 1 and 2, else the entry as it now is.
#[tactic(auto, using(crate::proofs::Replies::replied_blank), unfolding(crate::specs::Replies::replied))]
pub fn reply(judged: Judged, c: Command) -> Answer
    ensures { result ≡ replied judged.number judged.entry c }
{
    if is_blank(judged.number) {
        return refusal(judged.number);
    }
    inner::told(judged.number, judged.entry, length(judged, c))
}
