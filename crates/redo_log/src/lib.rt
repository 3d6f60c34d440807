// A desk's redo log, in lent bytes: whether it is good, its records, and an append that may be cut after any store of one byte.
#![tactic(auto)]

pub mod inner;

ghost use Rattle.std.specs.Prelude.{◌≡◌, ◌<◌, ◌↔◌, [], IsSome, length};
ghost use Rattle.std.specs.Option.{unwrap_or, option_copied};
ghost use Rattle.numbers.specs.Refusals.{number_of};
ghost use Rattle.redo_log.specs.Log.{log_number, read_at, read_back};
ghost use Rattle.redo_log.specs.Append.{append_number, appended};

use inner::reading::may_join;
use inner::records::{CheckedLog, LINE_AND_COUNT};
use numbers::Refusal;

// The layout of a log (rules 11.1 and 11.2): a byte for the count, a table of lines, and the bodies.
pub const MOST_RECORDS: usize = 200;

pub const BODIES: usize = 2201;

pub const MOST_LOG: usize = 65536;

// Whether a log is good.
pub fn check(log: &[u8]) -> Result<(), Refusal>
    ensures { number_of result ≡ log_number log.now }
{
    match CheckedLog::of(log) {
        Some(_) => Ok(()),
        None => Err(Refusal::BadLog),
    }
}

// The kind of record i; none where the log is not good or has no such record.
pub fn kind_of(log: &[u8], i: usize) -> Option<u8>
    ensures kind { unwrap_or result 0 ≡ (read_at log.now i).kind }
    ensures there { IsSome result ↔ (i < length (read_back log.now)) }
{
    let log = CheckedLog::of(log)?;
    if log.count() as usize <= i {
        return None;
    }
    Some(log.kind_at(i as u8))
}

// The body of record i, as a part of the log; none where the log is not good or has no such record.
pub fn body_of<'a>(log: &'a [u8], i: usize) -> Option<&'a [u8]>
    ensures body { unwrap_or (option_copied result) [] ≡ (read_at log.now i).body }
    ensures there { IsSome result ↔ (i < length (read_back log.now)) }
{
    let log = CheckedLog::of(log)?;
    if log.count() as usize <= i {
        return None;
    }
    Some(log.body_at(i as u8))
}

// Appends a record, as far as the first `budget` stores of one byte go.
pub fn append(log: &mut [u8], kind: u8, body: &[u8], budget: usize) -> Result<(), Refusal>
    ensures number { number_of result ≡ append_number budget log.old (record { kind = kind; body = body.now }) }
    ensures log { log.new ≡ appended budget log.old (record { kind = kind; body = body.now }) }
{
    let Some(good) = CheckedLog::of(log) else {
        return Err(Refusal::BadLog);
    };
    let stop = good.stop;
    if !may_join(kind, body, good.last, good.running) {
        return Err(Refusal::BadLog);
    }
    if (log[0] as usize == MOST_RECORDS) | (log.len() < stop + body.len()) {
        return Err(Refusal::LogFull);
    }
    inner::storing::store(log, kind, body, stop, budget);
    if budget < body.len() + LINE_AND_COUNT {
        return Err(Refusal::AppendCut);
    }
    Ok(())
}
