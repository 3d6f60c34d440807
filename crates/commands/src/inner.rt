// What other crates need, and what asks something of its caller.
ghost use Rattle.std.specs.Prelude.{◌≡◌, true, cond, ◌&&◌, ◌+◌, ◌≤◌, eqb, length, is_some, IfSome};
ghost use Rattle.lists.specs.Parts.{zeros};
ghost use Rattle.lists.specs.Table.{all};
ghost use Rattle.stamps.specs.Stamp.{mark_whole};
ghost use Rattle.formats.specs.Format.{format_of, fixed, update_at};
ghost use Rattle.commands.specs.Command.{update, act_checks, pair_checks};
ghost use Rattle.commands.specs.Bytes.{mark_at, fields_of, extent, blanks, formed};

use crate::formed::Formed;
use crate::{
    ACT, CARD, Command, EDITION, EXPECTED, LENGTH, MODE, NEXT, NO_COMMAND, VERIFIER, language_at,
    mark_at, pair_at,
};
use formats::Version;
use slices::inner::fixed_width::{read_u16, read_u32, read_u64};
use stamps::{Pair, mark_whole};

// The numbers of a command, by the offsets of rule 3.1.
#[tactic(auto, unfolding(crate::specs::Bytes::fields_of))]
pub fn fields(v: Version, bytes: &[u8]) -> Command
    requires { (52 ≤ length bytes.now) × (update_at (format_of v) + 16 ≤ length bytes.now) }
    ensures { result ≡ fields_of (format_of v) bytes.now }
{
    Command {
        act: bytes[ACT],
        mode: bytes[MODE],
        language: language_at(v, bytes),
        card: read_u16(bytes, CARD),
        verifier: pair_at(bytes, VERIFIER),
        opened: pair_at(bytes, v.layout().update_at),
        expected: mark_at(bytes, EXPECTED),
        next: mark_at(bytes, NEXT),
        edition: read_u16(bytes, EDITION),
        length: read_u16(bytes, LENGTH),
    }
}

// ---- Whether lent bytes are a command. Each number is read where its rule is tested: one that is read long before has to be put aside.

// Whether they are as long as they say, with zeros where these are to be.
fn whole(v: Version, bytes: &[u8]) -> bool
    ensures tests { result ≡ eqb (length bytes.now) (extent (format_of v) bytes.now) && zeros (blanks (format_of v) bytes.now) }
    ensures long { result ≡ true → fixed (format_of v) ≤ length bytes.now }
{
    let fixed = v.layout().fixed;
    if bytes.len() < fixed {
        return false;
    }
    if bytes.len() != fixed + (read_u16(bytes, LENGTH) as usize) {
        return false;
    }
    let blank = v.layout().blank_at;
    slices::all_zero(&bytes[blank..EXPECTED])
}

// Kept: the length is asked, and no array of 52 bytes taken: the update pair of version 2 stands behind them, and so each would be cut from the same bytes twice.
// Whether the numbers keep the rules that go by the act.
#[tactic(auto, unfolding(crate::specs::Bytes::fields_of))]
fn act_ok(v: Version, bytes: &[u8]) -> bool
    requires { 52 ≤ length bytes.now }
    ensures { result ≡ all (act_checks (fields_of (format_of v) bytes.now)) }
{
    let c = Command {
        act: bytes[ACT],
        mode: bytes[MODE],
        language: language_at(v, bytes),
        edition: read_u16(bytes, EDITION),
        length: read_u16(bytes, LENGTH),
        ..NO_COMMAND
    };
    c.act_ok()
}

// The update pair, where they keep those of the mode and of the two pairs.
#[tactic(auto, unfolding(crate::specs::Bytes::fields_of))]
fn opens(v: Version, bytes: &[u8]) -> Option<Pair>
    requires { (52 ≤ length bytes.now) × (update_at (format_of v) + 16 ≤ length bytes.now) }
    ensures { result ≡ cond (all (pair_checks (fields_of (format_of v) bytes.now))) (Some (update (fields_of (format_of v) bytes.now))) None }
{
    let c = Command {
        mode: bytes[MODE],
        verifier: pair_at(bytes, VERIFIER),
        opened: pair_at(bytes, v.layout().update_at),
        ..NO_COMMAND
    };
    c.opens()
}

// Whether both marks are whole. Mostly there are none: their twelve bytes are zero.
#[tactic(auto, using(crate::proofs::Marks::no_marks))]
fn marks_ok(bytes: &[u8]) -> bool
    requires { 52 ≤ length bytes.now }
    ensures { result ≡ mark_whole (mark_at 36 bytes.now) && mark_whole (mark_at 42 bytes.now) }
{
    if (read_u64(bytes, EXPECTED) == 0) & (read_u32(bytes, EXPECTED + 8) == 0) {
        return true;
    }
    mark_whole(mark_at(bytes, EXPECTED)) & mark_whole(mark_at(bytes, NEXT))
}

// Lent bytes as a command of a version, test by test in the order of rule 3.3: its update pair; `fields` are its numbers.
#[tactic(auto, using(crate::proofs::CommandBytes::formed_parts))]
pub fn open_as(v: Version, bytes: &[u8]) -> Option<Pair>
    ensures { result ≡ cond (formed (format_of v) bytes.now) (Some (update (fields_of (format_of v) bytes.now))) None }
{
    if !whole(v, bytes) {
        return None;
    }
    if !act_ok(v, bytes) {
        return None;
    }
    let update = opens(v, bytes)?;
    if !marks_ok(bytes) {
        return None;
    }
    Some(update)
}

// Lent bytes as a well-formed command of a version, where they are one.
#[tactic(auto, using(crate::proofs::CommandBytes::fixed_in, crate::proofs::CommandBytes::formed_rules, formats::proofs::Numbers::numbers))]
pub fn formed(v: Version, bytes: &[u8]) -> Option<Formed>
    ensures tests { is_some result ≡ formed (format_of v) bytes.now }
    ensures numbers { IfSome result (λ g. g.command ≡ fields_of (format_of v) bytes.now) }
{
    let pair = open_as(v, bytes)?;
    Some(Formed {
        command: fields(v, bytes),
        pair,
    })
}
