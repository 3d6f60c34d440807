// The steps of a transaction, for Rust and C (docs/RULES.md, rules 16.24 to 16.27). What a desk has seen of a card is an array of four numbers: whether
// the command that it last sent for the card was answered, whether that was an accepted prepare, the desk of the mark that the answer shows, and how many
// lines of the log are written out. Zeros are nothing seen.
ghost use Rattle.std.specs.Prelude.{◌≡◌};
ghost use Rattle.transaction_steps.specs.Steps.{seen_upon, next_of, step_told};
ghost use Rattle.transaction_steps.specs.Again.{begins_again, begun_again};
ghost use Rattle.transaction_steps.specs.Lent.{seen_in, seen_numbers};

use transaction_steps::{
    BAD, LOOK, LastSeen, NOTE, NOTHING, NextStep, PREPARE, READY, RELEASE, WAIT, WRITE,
};

// What the array says.
fn seen_in(seen: &[u16; 4]) -> LastSeen
    ensures { result ≡ seen_in seen.now }
{
    LastSeen {
        known: !(seen[0] == 0),
        held: !(seen[1] == 0),
        mark: seen[2],
        reach: seen[3],
    }
}

// What a desk sees by the answer to a step: its number and the desk of the mark that it shows. `seen` is written.
#[unsafe(no_mangle)]
pub extern "C" fn lupaniele_heard(step: u8, line: u8, number: u8, mark: u16, seen: &mut [u16; 4])
    ensures { seen.new ≡ seen_numbers (seen_upon step line number mark) }
{
    let LastSeen {
        known,
        held,
        mark,
        reach,
    } = transaction_steps::heard(step, line, number, mark);
    *seen = [u16::from(known), u16::from(held), mark, reach];
}

// A step in numbers: which one it is, the line that is to be written and the transaction that is to be noted, both 0 with other steps.
fn told(step: NextStep) -> (u8, u64, u64)
    ensures step { result.0 ≡ (step_told step).step }
    ensures line { result.1 ≡ (step_told step).line }
    ensures transaction { result.2 ≡ (step_told step).transaction }
{
    match step {
        NextStep::Nothing => (NOTHING, 0, 0),
        NextStep::Look => (LOOK, 0, 0),
        NextStep::Prepare => (PREPARE, 0, 0),
        NextStep::Ready => (READY, 0, 0),
        NextStep::Write(line) => (WRITE, line as u64, 0),
        NextStep::Release => (RELEASE, 0, 0),
        NextStep::Note(transaction) => (NOTE, 0, transaction as u64),
        NextStep::Wait => (WAIT, 0, 0),
        NextStep::Bad => (BAD, 0, 0),
    }
}

// The next step of a desk for a card, by its log, by whether it goes on with the transaction that is open, and by what it has seen of the card. The line
// that is to be written and the transaction that is to be noted are written to `line` and `transaction`, or 0.
#[unsafe(no_mangle)]
pub extern "C" fn lupaniele_next_step(
    log: &[u8],
    desk: u16,
    card: u16,
    going: bool,
    seen: &[u16; 4],
    line: &mut u64,
    transaction: &mut u64,
) -> u8
    ensures step { result ≡ (next_of log.now desk card going (seen_in seen.now)).step }
    ensures line { line.new ≡ (next_of log.now desk card going (seen_in seen.now)).line }
    ensures transaction { transaction.new ≡ (next_of log.now desk card going (seen_in seen.now)).transaction }
{
    let next = transaction_steps::next_step(log, desk, card, going, seen_in(seen));
    let (number, written, noted) = told(next);
    *line = written;
    *transaction = noted;
    number
}

// Lets a log begin again by one store, if it is good and nothing in it is due.
#[unsafe(no_mangle)]
pub extern "C" fn lupaniele_log_begin_again(log: &mut [u8]) -> bool
    ensures answer { result ≡ begins_again log.old }
    ensures log { log.new ≡ begun_again log.old }
{
    transaction_steps::begin_again(log)
}
