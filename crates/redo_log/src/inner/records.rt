// A good log and its records: no other crate knows where they stand, and the log is not checked again.
ghost use Rattle.std.specs.Prelude.{◌≡◌, true, false, ◌+◌, ◌≤◌, ◌<◌, length, MatchOption};
ghost use Rattle.redo_log.specs.Log.{good_log, shaped, record_count, start_at, length_at, record_at, last_begun, opened};

use crate::inner::reading::{Front, last_after};
use crate::{BODIES, MOST_LOG, MOST_RECORDS};
use slices::inner::fixed_width as le;

// Where the table begins, how long a line is, and where in it stand the place of the body, its length and its sum (rule 11.2). The kind stands first.
pub const TABLE: usize = 1;

pub const LINE: usize = 11;

pub const PLACE: usize = 1;

pub const LENGTH: usize = 5;

pub const SUM: usize = 7;

// What an append stores beside the body (rule 11.10): its line, and the count.
pub const LINE_AND_COUNT: usize = 12;

// ---- Record i of a log that is known to be good, by the log's bytes.

// How many records there are.
pub fn count(log: &[u8]) -> usize
    requires { good_log log.now ≡ true }
    ensures { result ≡ record_count log.now }
{
    log[0] as usize
}

// The kind of record i.
pub fn kind_at(log: &[u8], i: usize) -> u8
    requires { (good_log log.now ≡ true) × (i < record_count log.now) }
    ensures { result ≡ (record_at log.now i).kind }
{
    log[TABLE + LINE * i]
}

// Where the body of record i begins.
fn place_at(log: &[u8], i: usize) -> usize
    requires { (good_log log.now ≡ true) × (i < record_count log.now) }
    ensures { (result ≡ start_at log.now i) × (result + length_at log.now i ≤ length log.now) }
{
    le::read_u32(log, TABLE + LINE * i + PLACE) as usize
}

// The body of record i, as a part of the log.
pub fn body_at<'a>(log: &'a [u8], i: usize) -> &'a [u8]
    requires { (good_log log.now ≡ true) × (i < record_count log.now) }
    ensures { result.now ≡ (record_at log.now i).body }
{
    let at = place_at(log, i);
    let end = at + (le::read_u16(log, TABLE + LINE * i + LENGTH) as usize);
    &log[at..end]
}

// The last transaction begun after record i, where `last` is the last begun before it.
pub fn last_at(log: &[u8], i: usize, last: u32) -> u32
    requires { (good_log log.now ≡ true) × (i < record_count log.now) × (last ≡ last_begun (record_at log.now) i) }
    ensures { result ≡ last_begun (record_at log.now) (i + 1) }
{
    last_after(kind_at(log, i), body_at(log, i), last)
}

// ---- A good log as a value, and its records one after another.

// A good log: where the next body begins, the last transaction begun, and whether it is open.
#[derive(Clone, Copy)]
pub struct CheckedLog<'a> {
    pub bytes: &'a [u8],
    pub stop: usize,
    pub last: u32,
    pub running: bool,
    pub ghost good: { good_log bytes.now ≡ true },
    pub ghost stops: { stop ≡ start_at bytes.now (record_count bytes.now) },
    pub ghost lasts: { last ≡ last_begun (record_at bytes.now) (record_count bytes.now) },
    pub ghost runs: { running ≡ opened (record_at bytes.now) (record_count bytes.now) },
}

// A record of a good log: its line, the transaction that it belongs to, which is the last begun before it, its kind and its body.
#[derive(Clone, Copy)]
pub struct Record<'a> {
    pub line: u8,
    pub transaction: u32,
    pub kind: u8,
    pub body: &'a [u8],
    pub ghost is_shaped: { shaped (record { kind = kind; body = body.now }) ≡ true },
}

// The records of a good log from a line on.
#[derive(Clone, Copy)]
pub struct Records<'a> {
    pub log: CheckedLog<'a>,
    pub line: u8,
    pub last: u32,
    pub ghost within: { line ≤ record_count log.bytes.now },
    pub ghost last_is: { last ≡ last_begun (record_at log.bytes.now) line },
}

impl<'a> CheckedLog<'a> {
    ghost use Rattle.redo_log.specs.inner.Shown.{as_record, records_left};
    ghost use Rattle.redo_log.specs.inner.Placed.{places};

    // The log, if it is good.
    pub fn of(bytes: &'a [u8]) -> Option<CheckedLog<'a>>
        ensures { MatchOption result (good_log bytes.now ≡ false) (λ g. g.bytes.now ≡ bytes.now) }
    {
        if bytes.len() < BODIES || MOST_LOG < bytes.len() {
            return None;
        }
        let count = bytes[0] as usize;
        if MOST_RECORDS < count {
            return None;
        }
        let mut front = Front {
            log: bytes,
            count: 0,
            stop: BODIES,
            last: 0,
            running: false,
        };
        for _ in 0..count {
            front = front.with_next()?;
        }
        Some(CheckedLog {
            bytes,
            stop: front.stop,
            last: front.last,
            running: front.running,
        })
    }

    // How many records there are.
    pub fn count(&self) -> u8
        ensures { result ≡ record_count self.now.bytes.now }
    {
        self.bytes[0]
    }

    // The kind of record i.
    pub fn kind_at(&self, i: u8) -> u8
        requires { i < record_count self.now.bytes.now }
        ensures { result ≡ (record_at self.now.bytes.now i).kind }
    {
        kind_at(self.bytes, i as usize)
    }

    // The body of record i, as a part of the log.
    pub fn body_at(&self, i: u8) -> &'a [u8]
        requires { i < record_count self.now.bytes.now }
        ensures { result.now ≡ (record_at self.now.bytes.now i).body }
    {
        body_at(self.bytes, i as usize)
    }

    // All records.
    pub fn records(&self) -> Records<'a>
        ensures { records_left result ≡ places self.now.bytes.now }
    {
        Records {
            log: *self,
            line: 0,
            last: 0,
        }
    }
}

impl<'a> Iterator for Records<'a> {
    ghost use Rattle.std.specs.Iterator.{YieldsFirstBy, item_count};
    ghost use Rattle.redo_log.specs.inner.Shown.{as_record, records_left};

    type Item = Record<'a>;

    ghost next_gives = { YieldsFirstBy as_record records_left };

    ghost remaining = { item_count records_left };

    fn next(&mut self) -> Option<Record<'a>> {
        if self.log.count() <= self.line {
            return None;
        }
        let (line, transaction) = (self.line, self.last);
        let kind = self.log.kind_at(line);
        let body = self.log.body_at(line);
        self.last = last_after(kind, body, transaction);
        self.line += 1;
        Some(Record {
            line,
            transaction,
            kind,
            body,
        })
    }
}
