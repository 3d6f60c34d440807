// What kept bytes say: how much they hold, the entry of a card, and its texts.
ghost use Rattle.std.specs.Prelude.{◌≡◌, cond, reverse, ◌≤◌, ◌<◌, eqb, length};
ghost use Rattle.formats.specs.Format.{V1};
ghost use Rattle.guard.specs.Judge.{raise, last_edition};
ghost use Rattle.stream.specs.Stream.{commands};
ghost use Rattle.history.specs.WorkedOut.{entry_from};
ghost use Rattle.history.specs.Lent.{history_size};
ghost use Rattle.history.specs.inner.Steps.{written_by, LiesIn, Measured};

use commands::Command;
use formats::{FIXED_V1 as FIXED, Version};
use guard::Entry;
use stream::Reader;

// Of some bytes: how many commands they hold, how many payload bytes these have in all, and the byte where they end.
#[derive(Clone, Copy)]
pub struct Totals {
    pub count: usize,
    pub payloads: usize,
    pub end: usize,
}

// How much some bytes keep.
pub fn totals_of(kept: &[u8]) -> Totals
    ensures { Measured kept.now result.end result.count result.payloads }
{
    let mut count = 0;
    let mut payloads = 0;
    for command in Reader::new(Version::V1, kept) {
        count += 1;
        payloads += command.len() - FIXED;
    }
    Totals {
        count,
        payloads,
        end: count * FIXED + payloads,
    }
}

// The entry of a card after one more command, which may be for another card.
fn taken(e: Entry, c: Command, card: u16) -> Entry
    requires { e.edition < last_edition }
    ensures { result ≡ cond (eqb c.card card) (raise e c) e }
{
    if c.card == card {
        return e.raised(c, c.update());
    }
    e
}

// The entry of a card, worked out from the kept commands.
pub fn entry_of(kept: &[u8], card: u16) -> Entry
    requires { length kept.now ≤ history_size }
    ensures { result ≡ entry_from (reverse (commands V1 kept.now)) card }
{
    let mut e = guard::NO_ENTRY;
    for command in Reader::new(Version::V1, kept) {
        e = taken(e, commands::inner::fields(Version::V1, command), card);
    }
    e
}

// The text that the last command with this act for this card wrote, as a part of the kept bytes; empty where there is none.
pub fn text_of(kept: &[u8], card: u16, act: u8) -> &[u8]
    ensures text { result.now ≡ written_by act (reverse (commands V1 kept.now)) card }
    ensures place { LiesIn kept.now result.now }
{
    let mut text = &kept[..0];
    for command in Reader::new(Version::V1, kept) {
        let c = commands::inner::fields(Version::V1, command);
        if (c.card == card) & (c.act == act) {
            text = &command[FIXED..];
        }
    }
    text
}
