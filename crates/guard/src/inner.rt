// What other crates need, and what asks something of its caller.
pub mod rows;

ghost use Rattle.std.specs.Prelude.{◌≡◌, false};
ghost use Rattle.commands.specs.Command.{update};
ghost use Rattle.guard.specs.Judge.{editions_spent, raise};

use crate::{Answer, Entry};
use commands::Command;
use stamps::{Pair, larger_of_each};

impl Entry {
    // The entry after an accepted command, whose update pair is `new`: writing an original raises the edition by 1.
    // Kept: the pair beside the command, and no `Formed`: history::inner folds over kept bytes, of which nobody says that they keep the rules.
    #[tactic(auto, unfolding(crate::specs::Judge::raise))]
    pub fn raised(self, c: Command, new: Pair) -> Entry
        requires { (editions_spent self c ≡ false) × (new ≡ update c) }
        ensures { result ≡ raise self c }
    {
        let mut entry = Entry {
            pair: larger_of_each(self.pair, new),
            mark: c.next,
            ..self
        };
        if c.writes_original() {
            entry.edition += 1;
            entry.original = c.length;
        }
        if c.writes_translation() {
            entry.from = c.edition;
            entry.translation = c.length;
        }
        entry
    }
}

// A number with the reply fields of an entry, and the length of the text that is read.
pub fn told(number: u8, entry: Entry, length: u16) -> Answer
    ensures { result ≡ record { number = number; pair = entry.pair; mark = entry.mark; edition = entry.edition; from = entry.from; length = length } }
{
    Answer {
        number,
        pair: entry.pair,
        mark: entry.mark,
        edition: entry.edition,
        from: entry.from,
        length,
    }
}
