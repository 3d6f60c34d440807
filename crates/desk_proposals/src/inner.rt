// The number and the pair of a proposal.
pub mod above;

ghost use Rattle.std.specs.Prelude.{◌≡◌, ◌≤◌};
ghost use Rattle.lists.specs.Table.{first};
ghost use Rattle.numbers.specs.Refusals.{number_of};
ghost use Rattle.stamps.specs.Stamp.{own};
ghost use Rattle.desk_proposals.specs.Propose.{next_t, last_t, pair_for, proposal_rows};

use crate::Known;
use numbers::Refusal;
use stamps::{EXCLUSIVE, Pair, SHARED};

// The largest T that a stamp has room for.
const LAST_T: u64 = 4294967295;

// The T that a proposal needs.
fn t_for(known: Known, mode: u8) -> u64
    ensures { result ≡ next_t known.desk known.start (own mode known.pair) }
{
    let heard = known.pair;
    if mode == EXCLUSIVE {
        return above::next_t(known.desk, known.start, heard.x);
    }
    above::next_t(known.desk, known.start, heard.s)
}

// Whether a proposal can be made, by the first row that applies.
pub fn may_propose(known: Known, mode: u8) -> Result<(), Refusal>
    ensures { number_of result ≡ first (proposal_rows known mode) }
{
    if !(((mode == SHARED) | (mode == EXCLUSIVE)) & !(known.desk == 0)) {
        return Err(Refusal::Malformed);
    }
    if LAST_T < t_for(known, mode) {
        return Err(Refusal::NoStampLeft);
    }
    Ok(())
}

// The pair of a proposal, where a stamp of the desk's own is left.
pub fn pair_for(known: Known, mode: u8) -> Pair
    requires { next_t known.desk known.start (own mode known.pair) ≤ last_t }
    ensures { result ≡ pair_for known mode }
{
    let heard = known.pair;
    if mode == EXCLUSIVE {
        return Pair {
            s: heard.s,
            x: above::own_above(known.desk, known.start, heard.x),
        };
    }
    Pair {
        s: above::own_above(known.desk, known.start, heard.s),
        x: heard.x,
    }
}
