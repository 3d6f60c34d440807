// The queue over lent places, by trial n: 32 stand in 32 places, one leaves, and the next ask is judged afresh.
#![tactic(auto)]

ghost use Rattle.std.specs.Prelude.{◌≡◌, ◌*◌, ◌+◌};
ghost use Rattle.lock_queue.specs.Queue.{most_places};
ghost use Rattle.lock_queue.specs.Requests.{asks, leaves, number, answer, after};
ghost use Rattle.lock_queue_claims.specs.Trials.{guest, crowded};
ghost use Rattle.lock_queue_lent.specs.Slice.{lent_state};

use lock_queue::Waiting;
use lock_queue_lent::{Kept, LentOutcome};
use stamps::Pair;

// What a leave and then an ask came to.
#[derive(Clone, Copy)]
struct Turn {
    left: LentOutcome,
    asked: LentOutcome,
}

// One leaves, and then a desk asks, in 32 places that are lent.
fn leave_then_ask(places: [Waiting; 32], kept: Kept, desk: u32, new: Waiting) -> Turn
    ensures { (result.left.answer ≡ answer most_places (lent_state places kept) (leaves desk))
        × (result.asked.answer ≡ answer most_places (after most_places (lent_state places kept) (leaves desk)) (asks new)) }
{
    let mut lent = places;
    let left = lock_queue_lent::leave(&mut lent, kept, desk);
    let asked = lock_queue_lent::ask(&mut lent, left.kept, new);
    Turn { left, asked }
}

// The shared entry of desk n.
fn guest(n: u16) -> Waiting
    ensures { result ≡ guest n }
{
    Waiting {
        mode: 1,
        pair: Pair {
            s: n as u64 * 4294967296 + n as u64 * 65536,
            x: 0,
        },
    }
}

// Desks 1 to 32, all shared.
fn crowd() -> [Waiting; 32]
    ensures { result ≡ crowded.places }
{
    let mut all = [guest(1); 32];
    for i in 0..32 {
        all[i] = guest(i as u16 + 1);
    }
    all
}

// The numbers of a leave and then of an ask, in a queue where 32 stand: a hundred times the one, and the other.
fn numbers(desk: u32, new: Waiting) -> u64
    ensures { result ≡ number most_places crowded (leaves desk) * 100 + number most_places (after most_places crowded (leaves desk)) (asks new) }
{
    let last = guest(32);
    let kept = Kept {
        count: 32,
        largest: Pair {
            s: last.pair.s,
            x: 0,
        },
    };
    let turn = leave_then_ask(crowd(), kept, desk, new);
    turn.left.answer.number as u64 * 100 + turn.asked.answer.number as u64
}

fn main() {
    check::expect(numbers(0, guest(33)) == 1513);
    check::expect(numbers(7 * 65536, guest(33)) == 0);
    let old = Waiting {
        mode: 2,
        pair: Pair {
            s: 4297195520,
            x: 4297195520,
        },
    };
    check::expect(numbers(7 * 65536, old) == 11);
}
