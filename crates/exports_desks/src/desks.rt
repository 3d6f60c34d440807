// What a desk knows of one card, and the pairs that it proposes (docs/RULES.md, section 10). `known` is an array of two stamps, s and then x, both
// zero at first; a desk keeps one for each card.
// Kept: an array of two stamps for a pair, and a number for a refusal, as C lends and reads them (lupaniele_learn, lupaniele_propose).
ghost use Rattle.std.specs.Prelude.{◌≡◌};
ghost use Rattle.lists.specs.Table.{settled};
ghost use Rattle.desk_proposals.specs.Propose.{learnt, proposed};
ghost use Rattle.exports_desks.specs.Desks.{stamps_of, known_in};

use desk_proposals::Known;
use stamps::Pair;

// What a desk with its start knows.
fn known_in(desk: u16, start: u16, known: &[u64; 2]) -> Known
    ensures { result ≡ known_in desk start known.now }
{
    Known {
        desk,
        start,
        pair: Pair {
            s: known[0],
            x: known[1],
        },
    }
}

// Writes a pair.
fn write_stamps(stamps: &mut [u64; 2], pair: Pair)
    ensures { stamps.new ≡ stamps_of pair }
{
    *stamps = [pair.s, pair.x];
}

// The desk learns the pair (s, x): `known` becomes the larger of each.
#[unsafe(no_mangle)]
pub extern "C" fn lupaniele_learn(known: &mut [u64; 2], s: u64, x: u64)
    ensures { known.new ≡ stamps_of (learnt (known_in 0 0 known.old) (record { s = «s»; x = «x» })).pair }
{
    let before = known_in(0, 0, known);
    let after = before.learn(Pair { s, x });
    write_stamps(known, after.pair);
}

// The desk proposes a pair in a mode, 1 shared or 2 exclusive: 0, and the pair is written to `pair` and learnt in `known`; or 1 or 16, and
// neither is written.
#[unsafe(no_mangle)]
pub extern "C" fn lupaniele_propose(
    desk: u16,
    start: u16,
    known: &mut [u64; 2],
    mode: u8,
    pair: &mut [u64; 2],
) -> u8
    ensures number { result ≡ (proposed (known_in desk start known.old) mode).number }
    ensures known { known.new
        ≡ settled (proposed (known_in desk start known.old) mode).number
        (stamps_of (proposed (known_in desk start known.old) mode).known.pair) known.old }
    ensures pair { pair.new
        ≡ settled (proposed (known_in desk start known.old) mode).number
        (stamps_of (proposed (known_in desk start known.old) mode).pair) pair.old }
{
    let before = known_in(desk, start, known);
    let made = before.propose(mode);
    if made.number != numbers::ACCEPTED {
        return made.number;
    }
    let after = made.known;
    write_stamps(known, after.pair);
    write_stamps(pair, made.pair);
    made.number
}
