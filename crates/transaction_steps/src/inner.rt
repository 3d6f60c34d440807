// Steps of the operations, and what asks something of its caller.
ghost use Rattle.std.specs.Prelude.{◌≡◌, true, cond, ◌&&◌, ◌+◌, ◌<◌, eqb, leb};
ghost use Rattle.redo_log.specs.Log.{good_log, record_count, records, update_kind, record_card};
ghost use Rattle.redo_log.specs.inner.Placed.{placed_at};
ghost use Rattle.redo_log.specs.inner.Shown.{as_record};
ghost use Rattle.transactions.specs.System.{nothing_due};
ghost use Rattle.transaction_steps.specs.Steps.{reach_by, step_told, first_of, finishing, readying};
ghost use Rattle.transaction_steps.specs.inner.Surveyed.{surveyed};

use crate::{LastSeen, NextStep, WRITE};
use numbers::ACCEPTED;
use redo_log::inner::reading::UPDATE;
use redo_log::inner::records::{CheckedLog, Record};
use redo_recovery::inner::is_due;
use slices::inner::fixed_width as le;

// What the log says of a card: whether something is due; the first line that is due and not below the reach, or 200; the transaction of the last line
// that is due; and whether the transaction begun last changes the card.
// Kept: 200 and 0 for none, since `finishing` and `first_of` (rule 16.25) reckon with them: an `Option` would be made a number again where it is used.
#[derive(Clone, Copy)]
pub struct Survey {
    pub due: bool,
    pub line: u16,
    pub transaction: u32,
    pub changed: bool,
}

// How many lines are written out after an answer.
pub fn reach_by(step: u8, line: u8, number: u8) -> u16
    ensures { result ≡ reach_by step line number }
{
    if (step == WRITE) & (number == ACCEPTED) {
        return (line as u16) + 1;
    }
    0
}

// Kept: it is like `is_commit` of recovery, and differs in the kind, and in the place and width of the number that it compares.
// Whether a record is an update of a card.
fn is_update_of(record: &Record, card: u16) -> bool
    ensures { result ≡ (eqb (as_record record.now).entry.kind update_kind && eqb (record_card (as_record record.now).entry) card) }
{
    if record.kind != UPDATE {
        return false;
    }
    le::read_u16(record.body, 0) == card
}

// The line found so far, with line i.
fn line_after(line: u16, reach: u16, i: u16, is: bool) -> u16
    ensures { result ≡ first_of line (leb reach i && is) i }
{
    if line < 200 {
        return line;
    }
    if (reach <= i) & is {
        return i;
    }
    line
}

// The transaction found so far, with that of a line.
fn transaction_after(is: bool, last: u32, before: u32) -> u32
    ensures { result ≡ cond is last before }
{
    if is {
        return last;
    }
    before
}

// What the log says of a card, with one record more.
fn with_record(
    log: &CheckedLog,
    record: &Record,
    card: u16,
    reach: u16,
    begun: u32,
    found: Survey,
) -> Survey
    requires { (as_record record.now ≡ placed_at log.now.bytes.now record.now.line) × (record.now.line < record_count log.now.bytes.now)
        × (found ≡ surveyed (records log.now.bytes.now) card reach begun record.now.line) }
    ensures { result ≡ surveyed (records log.now.bytes.now) card reach begun (record.now.line + 1) }
{
    if !is_update_of(record, card) {
        return found;
    }
    let is = is_due(log, record);
    Survey {
        due: found.due | is,
        line: line_after(found.line, reach, record.line as u16, is),
        transaction: transaction_after(is, record.transaction, found.transaction),
        changed: found.changed | (record.transaction == begun),
    }
}

// What the log says of a card, record by record.
pub fn survey_records(log: &CheckedLog, card: u16, reach: u16, begun: u32) -> Survey
    ensures { result ≡ surveyed (records log.now.bytes.now) card reach begun (record_count log.now.bytes.now) }
{
    let mut found = Survey {
        due: false,
        line: 200,
        transaction: 0,
        changed: false,
    };
    for record in log.records() {
        found = with_record(log, &record, card, reach, begun, found);
    }
    found
}

// The same by a log's bytes, of which the caller knows that they are good.
pub fn survey_of(log: &[u8], card: u16, reach: u16, begun: u32) -> Survey
    requires { good_log log.now ≡ true }
    ensures { result ≡ surveyed (records log.now) card reach begun (record_count log.now) }
{
    let good = CheckedLog::of(log).unwrap();
    survey_records(&good, card, reach, begun)
}

// The step for a card of which something is due.
pub fn finish(desk: u16, mark: u16, line: u16, transaction: u32) -> NextStep
    ensures { step_told result ≡ finishing desk mark line transaction }
{
    if mark != desk {
        return NextStep::Note(transaction);
    }
    if line < 200 {
        return NextStep::Write(line as u8);
    }
    NextStep::Release
}

// The step for a card of which nothing is due and that the open transaction changes.
pub fn make_ready(desk: u16, seen: LastSeen) -> NextStep
    ensures { step_told result ≡ readying desk seen }
{
    if seen.mark == 0 {
        return NextStep::Prepare;
    }
    if seen.mark != desk {
        return NextStep::Wait;
    }
    if seen.held {
        return NextStep::Ready;
    }
    NextStep::Release
}

// Whether no record of a log is due.
pub fn none_is_due(log: &CheckedLog) -> bool
    ensures { result ≡ nothing_due (records log.now.bytes.now) }
{
    for record in log.records() {
        if is_due(log, &record) {
            return false;
        }
    }
    true
}

// The same by a log's bytes, of which the caller knows that they are good.
pub fn none_due(log: &[u8]) -> bool
    requires { good_log log.now ≡ true }
    ensures { result ≡ nothing_due (records log.now) }
{
    let good = CheckedLog::of(log).unwrap();
    none_is_due(&good)
}
