// Recovery from a desk's redo log: each update that is due is sent through the guard, as a request by itself.
#![tactic(auto)]

pub mod inner;
pub mod stops;

ghost use Rattle.std.specs.Prelude.{◌≡◌};
ghost use Rattle.redo_recovery_model.specs.Recovery.{recovered};
ghost use Rattle.redo_recovery.specs.Recover.{pairs_in, recovery_told, recovery_answer};

use formats::Version;
use numbers::{ACCEPTED, BAD_LOG, UNSOUND};
use redo_log::inner::records::CheckedLog;
pub use stops::Stopped;

// Lent pairs: the s and the x of each card, by number. A card beyond the end of a list has a zero there.
#[derive(Clone, Copy)]
pub struct LentPairs<'a> {
    pub s: &'a [u64],
    pub x: &'a [u64],
}

// Brings an image up to date from a log, under the exclusive pairs given by card. What was written before a refusal stays.
pub fn recover<'a>(log: &[u8], image: &mut [u8], pairs: LentPairs<'a>) -> Result<(), Stopped>
    ensures answer { recovery_told result ≡ recovery_answer (pairs_in pairs.entry) log.now image.old }
    ensures image { image.new ≡ (recovered (pairs_in pairs.entry) log.now image.old).image }
{
    let Some(log) = CheckedLog::of(log) else {
        return Err(Stopped {
            number: BAD_LOG,
            line: 0,
        });
    };
    let is_sound = image::sound(Version::V1, image);
    let records = log.records();
    for record in records {
        if !inner::is_due(&log, &record) {
            continue;
        }
        let line = record.line;
        if !is_sound {
            return Err(Stopped {
                number: UNSOUND,
                line,
            });
        }
        let number = inner::apply(image, &pairs, &record);
        if number != ACCEPTED {
            return Err(Stopped { number, line });
        }
    }
    Ok(())
}
