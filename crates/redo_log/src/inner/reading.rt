// Reading a log record by record, before it is known to be good.
ghost use Rattle.std.specs.Prelude.{◌≡◌, true, false, cond, ◌+◌, ◌≤◌, ◌<◌, length, eqb, MatchOption};
ghost use Rattle.lists.specs.Le.{field};
ghost use Rattle.redo_log.specs.Log.{shaped, joins, checksum, start_at, record_at, record_ok, last_begun, opened, begin_kind, bodies_from, most_log, most_records};
ghost use Rattle.lists.specs.Parts.{every};

use crate::inner::records::{LENGTH, LINE, PLACE, SUM, TABLE};
use slices::inner::fixed_width as le;

// Kept: kinds are bytes of a log, and `redo_log::append` takes any number for one: its clauses speak of `record { kind = kind; body = body.now }` (rule 11.4).
pub const BEGIN: u8 = 1;

pub const UPDATE: u8 = 2;

pub const COMMIT: u8 = 3;

pub const SYNCED: u8 = 4;

// The sum of a body's bytes.
pub fn sum_of(body: &[u8]) -> u32
    requires { length body.now ≤ 65536 }
    ensures { result ≡ checksum body.now }
{
    body.iter().map(|b| *b as u32).sum()
}

// Whether a body is laid out as its kind says.
#[tactic(auto, unfolding(crate::specs::Log::shaped))]
fn is_shaped(kind: u8, body: &[u8]) -> bool
    ensures { result ≡ shaped (record { kind = kind; body = body.now }) }
{
    let n = body.len();
    match kind {
        BEGIN | COMMIT => n == 4,
        UPDATE => n < 65536 && matches!(body.get(2), Some(1 | 2)),
        SYNCED => n == 6,
        _ => false,
    }
}

// Whether a record may follow.
#[tactic(auto, unfolding(crate::specs::Log::follows))]
pub fn may_join(kind: u8, body: &[u8], last: u32, running: bool) -> bool
    ensures { result ≡ joins last running (record { kind = kind; body = body.now }) }
{
    if !is_shaped(kind, body) {
        return false;
    }
    match kind {
        UPDATE => running,
        SYNCED => true,
        BEGIN => last < le::read_u32(body, 0),
        _ => running && le::read_u32(body, 0) == last,
    }
}

// The last transaction begun after a record, where `last` is the last begun before it.
pub fn last_after(kind: u8, body: &[u8], last: u32) -> u32
    requires { shaped (record { kind = kind; body = body.now }) ≡ true }
    ensures { result ≡ cond (eqb kind begin_kind) (field 0 4 body.now) last }
{
    if kind != BEGIN {
        return last;
    }
    le::read_u32(body, 0)
}

// The first `count` records of a log, each of which keeps the rules: where the next body begins, the last transaction begun, and whether it is open.
#[derive(Clone, Copy)]
pub struct Front<'a> {
    pub log: &'a [u8],
    pub count: usize,
    pub stop: usize,
    pub last: u32,
    pub running: bool,
    pub ghost from: { bodies_from ≤ length log.now },
    pub ghost most: { length log.now ≤ most_log },
    pub ghost few: { count ≤ most_records },
    pub ghost kept: { every (record_ok log.now) count ≡ true },
    pub ghost stops: { stop ≡ start_at log.now count },
    pub ghost lasts: { last ≡ last_begun (record_at log.now) count },
    pub ghost runs: { running ≡ opened (record_at log.now) count },
}

impl<'a> Front<'a> {
    // With the next record, if that keeps the rules too.
    pub fn with_next(self) -> Option<Front<'a>>
        requires { self.count < most_records }
        ensures { MatchOption result (record_ok self.entry.log.now self.entry.count ≡ false)
            (λ f. (f.log.now ≡ self.entry.log.now) × (f.count ≡ self.entry.count + 1)) }
    {
        let log = self.log;
        let line = TABLE + LINE * self.count;
        let kind = log[line];
        let size = le::read_u16(log, line + LENGTH) as usize;
        if log.len() - self.stop < size {
            return None;
        }
        let end = self.stop + size;
        let body = &log[self.stop..end];
        let is_ok = (le::read_u32(log, line + PLACE) as usize == self.stop)
            & (le::read_u32(log, line + SUM) == sum_of(body))
            & may_join(kind, body, self.last, self.running);
        if !is_ok {
            return None;
        }
        Some(Front {
            log,
            count: self.count + 1,
            stop: end,
            last: last_after(kind, body, self.last),
            running: (kind == BEGIN) | self.running & !(kind == COMMIT),
        })
    }
}
