// The table's rows from 3 on, for a command that is well formed.
ghost use Rattle.std.specs.Prelude.{◌≡◌, true, cond, ltb};
ghost use Rattle.guard.specs.Judge.{act_rows, entry_rows, judged};
ghost use Rattle.commands.specs.Command.{update, well_formed};
ghost use Rattle.lists.specs.Table.{first};
ghost use Rattle.numbers.specs.Numbers.{REPLY_SHORT};
ghost use Rattle.numbers.specs.Refusals.{number_of};

use crate::{Entry, Judged, behind};
use commands::formed::Formed;
use commands::{Command, VERIFY};
use numbers::{Refusal, number_of};
use stamps::{Pair, mark_fits, stale, too_far};

// The edition that no write can raise.
const LAST_EDITION: u16 = 65535;

// A text that is read has to fit into the lent reply buffer.
fn fits(lent: usize, length: u16) -> Result<(), Refusal>
    ensures { number_of result ≡ cond (ltb lent length) REPLY_SHORT 0 }
{
    if lent < length as usize {
        return Err(Refusal::ReplyShort);
    }
    Ok(())
}

impl Entry {
    // Refused by the first of the rows 5 to 8 that applies, by the act: act 5, which is asked most, has none, act 1 row 8, act 2 rows 6 and 8, act 3
    // rows 5 and 7, act 4 rows 5 and 6. A command that writes nothing has no payload.
    #[tactic(auto, using(crate::proofs::Judge::no_payload, crate::proofs::Judge::rows_original, crate::proofs::Judge::rows_translation))]
    fn act_outcome(self, formed: Formed, room: u16, lent: usize) -> Result<(), Refusal>
        ensures { number_of result ≡ first (act_rows self formed.command room lent) }
    {
        let c = formed.command;
        if c.act == VERIFY {
            return Ok(());
        }
        if c.reads_original() {
            return fits(lent, self.original);
        }
        if c.reads_translation() {
            if behind(self.edition, self.from) {
                return Err(Refusal::EditionWrong);
            }
            return fits(lent, self.translation);
        }
        if room < c.length {
            return Err(Refusal::PayloadLong);
        }
        if c.writes_original() {
            if self.edition == LAST_EDITION {
                return Err(Refusal::EditionsSpent);
            }
            return Ok(());
        }
        if c.writes_translation() && c.edition != self.edition {
            return Err(Refusal::EditionWrong);
        }
        Ok(())
    }

    // Refused by the first row from 3 on that applies.
    pub fn outcome(self, formed: Formed, room: u16, lent: usize) -> Result<(), Refusal>
        ensures { number_of result ≡ first (entry_rows self formed.command room lent) }
    {
        let c = formed.command;
        if stale(c.mode, self.pair, c.verifier) {
            return Err(Refusal::Stale);
        }
        if too_far(self.pair, formed.pair) {
            return Err(Refusal::TooFar);
        }
        if !mark_fits(self.mark, c.expected) {
            return Err(Refusal::MarkDiffers);
        }
        self.act_outcome(formed, room, lent)
    }

    // The number of the first row from 3 on that applies, to a well-formed command whose update pair is `new`.
    pub fn number(self, c: Command, new: Pair, room: u16, lent: usize) -> u8
        requires { (well_formed c ≡ true) × (new ≡ update c) }
        ensures { result ≡ first (entry_rows self c room lent) }
    {
        let formed = Formed {
            command: c,
            pair: new,
        };
        number_of(self.outcome(formed, room, lent))
    }

    // The entry judges a command that is well formed.
    #[tactic(auto, using(crate::proofs::Judge::judged_refused, crate::proofs::Judge::judged_raised))]
    pub fn judge_formed(self, c: Command, room: u16, lent: usize) -> Judged
        requires { well_formed c ≡ true }
        ensures { result ≡ judged self c room lent }
    {
        let formed = Formed {
            command: c,
            pair: c.update(),
        };
        let outcome = self.outcome(formed, room, lent);
        let number = number_of(outcome);
        if outcome.is_err() {
            return Judged {
                number,
                entry: self,
            };
        }
        Judged {
            number,
            entry: self.raised(c, formed.pair),
        }
    }
}
