ghost use Rattle.std.specs.Prelude.{◌≡◌, true, cond, [], ◌≤◌, ◌<◌, length, eqb};
ghost use Rattle.formats.specs.Format.{V1, translations};
ghost use Rattle.image.specs.Image.{sound};
ghost use Rattle.commands.specs.Bytes.{command_bytes};
ghost use Rattle.stamps.specs.Stamp.{FitsPair};
ghost use Rattle.commands.specs.Command.{FitsCommand};
ghost use Rattle.redo_log.specs.Log.{records};
ghost use Rattle.redo_log.specs.inner.Shown.{as_record};
ghost use Rattle.store_model.specs.Serve.{serve};
ghost use Rattle.redo_recovery_model.specs.Recovery.{commits_to, syncs_from, recovery_pair, entry_for, write_by};
ghost use Rattle.redo_recovery.specs.inner.Step.{update_written, write_outcome, due_by};
ghost use Rattle.redo_recovery.specs.Recover.{pairs_in};

use crate::LentPairs;
use commands::Command;
use formats::Version;
use guard::Entry;
use redo_log::inner::reading::{COMMIT, SYNCED, UPDATE};
use redo_log::inner::records::{CheckedLog, Record};
use slices::inner::fixed_width as le;
use stamps::{NO_PAIR, Pair};

// Kept: it is like `is_update_of` of the steps, and differs in the kind, and in the place and width of the number that it compares.
// Whether a record commits transaction t.
fn is_commit(record: &Record, t: u32) -> bool
    ensures { result ≡ commits_to t (as_record record.now).entry }
{
    if record.kind != COMMIT {
        return false;
    }
    le::read_u32(record.body, 0) == t
}

// Whether a record says that a card is synced as of transaction t or a higher one.
fn is_synced(record: &Record, card: u16, t: u32) -> bool
    ensures { result ≡ syncs_from card t (as_record record.now).entry }
{
    if record.kind != SYNCED {
        return false;
    }
    (le::read_u16(record.body, 0) == card) & (t <= le::read_u32(record.body, 2))
}

// Whether a record of a log is to be applied: an update whose transaction is committed and whose card is not synced as of it.
pub fn is_due(log: &CheckedLog, record: &Record) -> bool
    ensures { result ≡ due_by (records log.now.bytes.now) (as_record record.now) }
{
    if record.kind != UPDATE {
        return false;
    }
    let card = le::read_u16(record.body, 0);
    let t = record.transaction;
    log.records().any(|r| is_commit(&r, t)) && !log.records().any(|r| is_synced(&r, card, t))
}

impl<'a> LentPairs<'a> {
    ghost use Rattle.redo_recovery.specs.Recover.{pairs_in};

    // The pair of card k; zeros for a card beyond the end.
    fn of(&self, k: u16) -> Pair
        ensures pair { result ≡ recovery_pair (pairs_in self.now) k }
        ensures fits { FitsPair result }
    {
        Pair {
            s: self.s.get(k as usize).copied().unwrap_or(0),
            x: self.x.get(k as usize).copied().unwrap_or(0),
        }
    }
}

// The entry of card k as stored; zeros where there is no such card.
fn entry_for(image: &[u8], k: u16) -> Entry
    requires { sound V1 image.now ≡ true }
    ensures { result ≡ entry_for image.now k }
{
    if image::inner::read::count(image) <= k {
        return guard::NO_ENTRY;
    }
    image::inner::read::entry_at(Version::V1, image, k, 0)
}

// What is written on a side of a card, and the edition that the write names: on side 1 an original, which names none; else a translation, of the stored one.
fn act_of(side: u8, edition: u16) -> (u8, u16)
    ensures { result ≡ (cond (eqb side 1) 3 4, cond (eqb side 1) 0 edition) }
{
    match side {
        1 => (commands::WRITE_ORIGINAL, 0),
        _ => (commands::WRITE_TRANSLATION, edition),
    }
}

// The write of an update: the one place where recovery makes a command.
fn write_of(pair: Pair, e: Entry, body: &[u8]) -> Command
    requires { (3 ≤ length body.now) × (length body.now < 65536) }
    ensures { result ≡ write_by pair e (record { kind = 2; body = body.now }) }
{
    let mark = e.mark;
    let size = body.len() - 3;
    let (act, edition) = act_of(body[2], e.edition);
    Command {
        act,
        mode: stamps::EXCLUSIVE,
        language: 0,
        card: le::read_u16(body, 0),
        verifier: pair,
        opened: NO_PAIR,
        expected: mark,
        next: mark,
        edition,
        length: size as u16,
    }
}

// Kept: a number, that of the guard's answer, as the definition `serve` has it; so has `apply`.
// A command by its numbers and its text, on a sound image: what its bytes and an empty reply buffer would get.
fn carry_out(image: &mut [u8], c: Command, text: &[u8]) -> u8
    requires { (sound V1 image.old ≡ true) × (length text.now ≡ c.length) × FitsCommand c × (c.language < translations V1) }
    ensures number { result ≡ (serve V1 image.old (command_bytes V1 c text.now) []).answer.number }
    ensures image { image.new ≡ (serve V1 image.old (command_bytes V1 c text.now) []).image }
    ensures kept { sound V1 image.new ≡ true }
{
    if !c.well_formed() {
        return numbers::MALFORMED;
    }
    if image::inner::read::count(image) <= c.card {
        return numbers::NO_CARD;
    }
    let mut none = [0u8; 0];
    let a = store::inner::step::carry(Version::V1, image, c, c.update(), text, &mut none);
    a.number
}

// The write of an update under a pair, through the guard.
fn write(image: &mut [u8], pair: Pair, body: &[u8]) -> u8
    requires { (sound V1 image.old ≡ true) × (3 ≤ length body.now) × (length body.now < 65536) × FitsPair pair }
    ensures number { result ≡ (update_written pair image.old (record { kind = 2; body = body.now })).answer.number }
    ensures image { image.new ≡ (update_written pair image.old (record { kind = 2; body = body.now })).image }
    ensures kept { sound V1 image.new ≡ true }
{
    let c = write_of(pair, entry_for(image, le::read_u16(body, 0)), body);
    carry_out(image, c, &body[3..])
}

// The write of a record, which is an update, under the pair of its card.
pub(crate) fn apply<'a>(image: &mut [u8], pairs: &LentPairs<'a>, record: &Record) -> u8
    requires { (sound V1 image.old ≡ true) × (record.now.kind ≡ 2) }
    ensures number { result ≡ (write_outcome (pairs_in pairs.now) image.old (as_record record.now).entry).answer.number }
    ensures image { image.new ≡ (write_outcome (pairs_in pairs.now) image.old (as_record record.now).entry).image }
    ensures kept { sound V1 image.new ≡ true }
{
    let pair = pairs.of(le::read_u16(record.body, 0));
    write(image, pair, record.body)
}
