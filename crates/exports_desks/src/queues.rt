// The lock queue of one card, for Rust and C.
// Kept: arrays of one length side by side, and counts beside them, as C lends them (lupaniele_ask, lupaniele_leave, lupaniele_lapse).
ghost use Rattle.std.specs.Prelude.{◌≡◌};
ghost use Rattle.lock_queue.specs.Queue.{waiting};
ghost use Rattle.lock_queue.specs.Requests.{asks, leaves, lapses};
ghost use Rattle.lock_queue_lent.specs.Arrays.{queue_of, array_turn};
ghost use Rattle.exports_desks.specs.Expiries.{expiry_of};

use lock_queue::{Lease, LeaseExpiry, Waiting};
use lock_queue_lent::inner::arrays::{load, write_outcome};
use stamps::Pair;

// A desk asks for the lock of one card. The queue is three arrays, with the mode, the s and the x of each place, of which the first `places`
// are lent, and `kept`: its count, the largest s and the largest x. The answer's number is returned; whether the desk holds the lock (1 or
// 0), the largest s and x, and how many entries were looked at are written to `fields`.
#[unsafe(no_mangle)]
pub extern "C" fn lupaniele_ask(
    modes: &mut [u8; 32],
    s: &mut [u64; 32],
    x: &mut [u64; 32],
    kept: &mut [u64; 3],
    places: u64,
    mode: u8,
    asked_s: u64,
    asked_x: u64,
    fields: &mut [u64; 4],
) -> u8
    ensures { array_turn places (queue_of modes.old s.old x.old kept.old) (asks (waiting mode asked_s asked_x))
        ≡ record { number = result; fields = fields.new; modes = modes.new; s = s.new; x = x.new; kept = kept.new } }
{
    let queue = load(modes, s, x, kept);
    let new = Waiting {
        mode,
        pair: Pair {
            s: asked_s,
            x: asked_x,
        },
    };
    let outcome = lock_queue::ask(queue, places as usize, new);
    write_outcome(modes, s, x, kept, fields, outcome)
}

// The desk and start `desk` leaves the queue. Everything else is as for asking.
#[unsafe(no_mangle)]
pub extern "C" fn lupaniele_leave(
    modes: &mut [u8; 32],
    s: &mut [u64; 32],
    x: &mut [u64; 32],
    kept: &mut [u64; 3],
    places: u64,
    desk: u32,
    fields: &mut [u64; 4],
) -> u8
    ensures { array_turn places (queue_of modes.old s.old x.old kept.old) (leaves desk)
        ≡ record { number = result; fields = fields.new; modes = modes.new; s = s.new; x = x.new; kept = kept.new } }
{
    let queue = load(modes, s, x, kept);
    let outcome = lock_queue::leave(queue, places as usize, desk);
    write_outcome(modes, s, x, kept, fields, outcome)
}

// The desk and start `desk`, held failed since `begin`, leaves the queue once its lease is over at `time`. Everything else is as for leaving.
#[unsafe(no_mangle)]
pub extern "C" fn lupaniele_lapse(
    modes: &mut [u8; 32],
    s: &mut [u64; 32],
    x: &mut [u64; 32],
    kept: &mut [u64; 3],
    places: u64,
    desk: u32,
    period: f64,
    drift: f64,
    begin: f64,
    time: f64,
    fields: &mut [u64; 4],
) -> u8
    ensures { array_turn places (queue_of modes.old s.old x.old kept.old) (lapses (expiry_of desk period drift begin time))
        ≡ record { number = result; fields = fields.new; modes = modes.new; s = s.new; x = x.new; kept = kept.new } }
{
    let queue = load(modes, s, x, kept);
    let expiry = LeaseExpiry {
        desk,
        lease: Lease { period, drift },
        begin,
        now: time,
    };
    let outcome = lock_queue::lapse(queue, places as usize, expiry);
    write_outcome(modes, s, x, kept, fields, outcome)
}
