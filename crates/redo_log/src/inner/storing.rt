ghost use Rattle.std.specs.Prelude.{◌≡◌, ◌+◌, ◌≤◌, length, take};
ghost use Rattle.lists.specs.Parts.{splice};
ghost use Rattle.lists.specs.Le.{to_le};
ghost use Rattle.redo_log.specs.Log.{start_at, record_count};
ghost use Rattle.redo_log.specs.Append.{line_bytes, stored, stores};
ghost use Rattle.redo_log.specs.inner.Admitted.{Admitted};

use crate::inner::reading;
use crate::inner::records::{LENGTH, LINE, PLACE, SUM, TABLE};

// Stores the first bytes of `v` from `at` on, as many as the budget allows.
fn put_bytes(log: &mut [u8], at: usize, v: &[u8], budget: usize)
    requires { at + length v.now ≤ length log.old }
    ensures { log.new ≡ splice at (take budget v.now) log.old }
{
    slices::inner::put(log, at, &v[..budget.min(v.len())]);
}

// Stores the first of the `count` bytes of a number, as many as the budget allows.
fn put_number(log: &mut [u8], at: usize, count: usize, value: u64, budget: usize)
    requires { at + count ≤ length log.old }
    ensures { log.new ≡ splice at (take budget (to_le count value)) log.old }
{
    slices::inner::write(log, at, budget.min(count), value);
}

// Stores a record's line.
fn put_line(log: &mut [u8], at: usize, kind: u8, place: usize, body: &[u8], budget: usize)
    requires { (at + 11 ≤ length log.old) × (length body.now ≤ 65535) }
    ensures { log.new ≡ splice at (take budget (line_bytes place (record { kind = kind; body = body.now }))) log.old }
{
    put_number(log, at, 1, kind as u64, budget);
    put_number(
        log,
        at + PLACE,
        4,
        place as u64,
        budget.saturating_sub(PLACE),
    );
    put_number(
        log,
        at + LENGTH,
        2,
        body.len() as u64,
        budget.saturating_sub(LENGTH),
    );
    put_number(
        log,
        at + SUM,
        4,
        reading::sum_of(body) as u64,
        budget.saturating_sub(SUM),
    );
}

// The first stores of an append that is not refused.
pub fn store(log: &mut [u8], kind: u8, body: &[u8], stop: usize, budget: usize)
    requires { (stop ≡ start_at log.old (record_count log.old)) × Admitted log.old (record { kind = kind; body = body.now }) × (length body.now ≤ 65535) }
    ensures { log.new ≡ stored (take budget (stores log.old (record { kind = kind; body = body.now }))) log.old }
{
    let count = log[0] as usize;
    put_bytes(log, stop, body, budget);
    put_line(
        log,
        TABLE + LINE * count,
        kind,
        stop,
        body,
        budget.saturating_sub(body.len()),
    );
    put_number(
        log,
        0,
        1,
        (count + 1) as u64,
        budget.saturating_sub(body.len() + LINE),
    );
}
