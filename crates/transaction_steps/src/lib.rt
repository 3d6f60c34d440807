// The next step of a transaction for a card, from a desk's log and from what it has last seen of the card (docs/RULES.md, rules 16.24 to 16.28).
#![tactic(auto)]

pub mod inner;

ghost use Rattle.std.specs.Prelude.{◌≡◌};
ghost use Rattle.transaction_steps.specs.Steps.{seen_upon, next_of, step_told};
ghost use Rattle.transaction_steps.specs.Again.{begins_again, begun_again};

use numbers::ACCEPTED;
use redo_log::inner::records::CheckedLog;

// The steps in numbers, as C has them.
pub const NOTHING: u8 = 0;

pub const LOOK: u8 = 1;

pub const PREPARE: u8 = 2;

pub const READY: u8 = 3;

pub const WRITE: u8 = 4;

pub const RELEASE: u8 = 5;

pub const NOTE: u8 = 6;

pub const WAIT: u8 = 7;

pub const BAD: u8 = 8;

// Kept: `known` stands beside the rest, since `seen_upon` (rule 16.24, `lupaniele_heard`) tells the mark and the reach also of an answer that shows nothing.
// What a desk has seen of a card: whether the command that it last sent for the card was answered; whether that was a prepare that was accepted; the
// desk in the mark that the answer shows; and how many lines of the log are written out.
#[derive(Clone, Copy)]
pub struct LastSeen {
    pub known: bool,
    pub held: bool,
    pub mark: u16,
    pub reach: u16,
}

// The next step for a card. A write is that of a line of the log, and a note says that a transaction is synced.
#[derive(Clone, Copy, PartialEq, Eq)]
pub enum NextStep {
    Nothing,
    Look,
    Prepare,
    Ready,
    Write(u8),
    Release,
    Note(u32),
    Wait,
    Bad,
}

// What a desk sees by an answer to the step that it took: its number, and the desk of the mark that it shows.
// Kept: `step` is a number and no `NextStep`, since `lupaniele_heard` hands on any byte of its caller's, and `seen_upon` speaks of every one.
pub fn heard(step: u8, line: u8, number: u8, mark: u16) -> LastSeen
    ensures { result ≡ seen_upon step line number mark }
{
    LastSeen {
        known: !((number == numbers::UNSOUND)
            | (number == numbers::MALFORMED)
            | (number == numbers::NO_CARD)),
        held: (step == PREPARE) & (number == ACCEPTED),
        mark: mark,
        reach: inner::reach_by(step, line, number),
    }
}

// The next step of a desk for a card; `going` says whether the desk goes on with the transaction that is open.
pub fn next_step(log: &[u8], desk: u16, card: u16, going: bool, seen: LastSeen) -> NextStep
    ensures { step_told result ≡ next_of log.now desk card going seen }
{
    let Some(log) = CheckedLog::of(log) else {
        return NextStep::Bad;
    };
    if desk == 0 {
        return NextStep::Bad;
    }
    if !seen.known {
        return NextStep::Look;
    }
    let found = inner::survey_records(&log, card, seen.reach, log.last);
    if found.due {
        return inner::finish(desk, seen.mark, found.line, found.transaction);
    }
    if going & (log.running & found.changed) {
        return inner::make_ready(desk, seen);
    }
    if seen.mark == desk {
        return NextStep::Release;
    }
    NextStep::Nothing
}

// Lets a log begin again by one store, if nothing in it is due.
pub fn begin_again(log: &mut [u8]) -> bool
    ensures answer { result ≡ begins_again log.old }
    ensures log { log.new ≡ begun_again log.old }
{
    let Some(good) = CheckedLog::of(log) else {
        return false;
    };
    if !inner::none_is_due(&good) {
        return false;
    }
    log[0] = 0;
    true
}
