ghost use Rattle.std.specs.Prelude.{◌≡◌};
ghost use Rattle.guard.specs.Judge.{judged};

use crate::{Entry, Judged};
use commands::Command;
use numbers::MALFORMED;

impl Entry {
    // An entry takes a command and gives back the entry that then stands, with the number, for the room C and the length of the lent reply buffer.
    #[tactic(auto, using(crate::proofs::Judge::judged_by))]
    pub fn judge(self, c: Command, room: u16, lent: usize) -> Judged
        ensures { result ≡ judged self c room lent }
    {
        if !c.well_formed() {
            return Judged {
                number: MALFORMED,
                entry: self,
            };
        }
        self.judge_formed(c, room, lent)
    }
}
