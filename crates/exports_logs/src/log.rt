// A desk's redo log and recovery, for Rust and C.
ghost use Rattle.std.specs.Prelude.{◌≡◌};
ghost use Rattle.redo_log.specs.Log.{log_number};
ghost use Rattle.redo_log.specs.Append.{append_number, appended};
ghost use Rattle.redo_recovery_model.specs.Recovery.{recovered};
ghost use Rattle.redo_recovery.specs.Recover.{pairs_of};

use numbers::{ACCEPTED, number_of};
use redo_recovery::LentPairs;

// Whether the lent bytes are a good log: 0, or 23.
#[unsafe(no_mangle)]
pub extern "C" fn lupaniele_log_check(log: &[u8]) -> u8
    ensures { result ≡ log_number log.now }
{
    number_of(redo_log::check(log))
}

// Appends a record as far as the first `stores` stores of one byte go: 0, or 23 and 24 and nothing stored, or 26.
#[unsafe(no_mangle)]
pub extern "C" fn lupaniele_log_append(log: &mut [u8], kind: u8, body: &[u8], stores: u64) -> u8
    ensures number { result ≡ append_number stores log.old (record { kind = kind; body = body.now }) }
    ensures log { log.new ≡ appended stores log.old (record { kind = kind; body = body.now }) }
{
    number_of(redo_log::append(log, kind, body, stores as usize))
}

// Brings an image up to date from a log, under the pairs given by card in `s` and `x`. The number is returned, and the line of the record whose
// write was refused is written to `line`, or 0.
#[unsafe(no_mangle)]
pub extern "C" fn lupaniele_recover<'a>(
    log: &[u8],
    image: &mut [u8],
    s: &'a [u64],
    x: &'a [u64],
    line: &mut u64,
) -> u8
    ensures number { result ≡ (recovered (pairs_of s.now x.now) log.now image.old).number }
    ensures line { line.new ≡ (recovered (pairs_of s.now x.now) log.now image.old).line }
    ensures image { image.new ≡ (recovered (pairs_of s.now x.now) log.now image.old).image }
{
    match redo_recovery::recover(log, image, LentPairs { s, x }) {
        Ok(()) => {
            *line = 0;
            ACCEPTED
        }
        Err(stopped) => {
            *line = stopped.line as u64;
            stopped.number
        }
    }
}
