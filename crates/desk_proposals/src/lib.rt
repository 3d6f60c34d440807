// What a desk knows of one card, and the pairs that it proposes for it (docs/RULES.md, section 10).
#![tactic(auto)]

pub mod inner;

ghost use Rattle.std.specs.Prelude.{◌≡◌};
ghost use Rattle.desk_proposals.specs.Propose.{learnt, proposed};

use numbers::{ACCEPTED, number_of};
use stamps::{NO_PAIR, Pair, larger_of_each};

// What a desk knows of one card: its own desk and start, and the largest s and x that it has heard of there.
#[derive(Clone, Copy)]
pub struct Known {
    pub desk: u16,
    pub start: u16,
    pub pair: Pair,
}

// A proposal's number, its pair (zeros with a refusal), and what the desk knows then.
// Kept: a number beside the pair, since `proposed` of specs says all three of a refusal too (rules 10.6 and 10.7).
#[derive(Clone, Copy)]
pub struct Proposed {
    pub number: u8,
    pub pair: Pair,
    pub known: Known,
}

impl Known {
    // The desk learns a pair: the larger of each stamp.
    pub fn learn(self, pair: Pair) -> Known
        ensures { result ≡ learnt self pair }
    {
        Known {
            pair: larger_of_each(self.pair, pair),
            ..self
        }
    }

    // The desk proposes a pair for the card, shared or exclusive.
    pub fn propose(self, mode: u8) -> Proposed
        ensures { result ≡ proposed self mode }
    {
        let number = number_of(inner::may_propose(self, mode));
        if number != ACCEPTED {
            return Proposed {
                number,
                pair: NO_PAIR,
                known: self,
            };
        }
        let pair = inner::pair_for(self, mode);
        Proposed {
            number,
            pair,
            known: self.learn(pair),
        }
    }
}
