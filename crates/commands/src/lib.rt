// A command: its numbers, its rules, and its bytes.
#![tactic(auto)]

pub mod formed;
pub mod inner;

ghost use Rattle.std.specs.Prelude.{◌≡◌, cond, ◌+◌, ◌≤◌, length};
ghost use Rattle.lists.specs.Table.{all};
ghost use Rattle.commands.specs.Command.{Language, reads_translation, writes_translation, reads, writes, opens_none, update, act_checks, verifier_checks, pair_checks, well_formed};
ghost use Rattle.commands.specs.Bytes.{mark_at, pair_at, language_at, parsed};
ghost use Rattle.formats.specs.Format.{format_of};

use formats::Version;
use stamps::{EXCLUSIVE, Mark, NO_MARK, NO_PAIR, Pair, mark_whole, session_ok, stamp_valid};

// ---- A command: its numbers and its rules.

// The numbers of a command. Its payload stands behind the fixed part in the lent bytes. `opened` is what was sent as the
// update pair, zeros where that is the verifier too. `language` is the translation that is read or written.
#[derive(Clone, Copy)]
pub struct Command {
    pub act: u8,
    pub mode: u8,
    pub language: u8,
    pub card: u16,
    pub verifier: Pair,
    pub opened: Pair,
    pub expected: Mark,
    pub next: Mark,
    pub edition: u16,
    pub length: u16,
}

// The command of zeros.
const NO_COMMAND: Command = Command {
    act: 0,
    mode: 0,
    language: 0,
    card: 0,
    verifier: NO_PAIR,
    opened: NO_PAIR,
    expected: NO_MARK,
    next: NO_MARK,
    edition: 0,
    length: 0,
};

// The acts.
// Kept: the act of lent bytes is any byte, and the guard judges a command of any act, by the definition `judged`: an enum of the five would be a narrower type.
pub const READ_ORIGINAL: u8 = 1;

pub const READ_TRANSLATION: u8 = 2;

pub const WRITE_ORIGINAL: u8 = 3;

pub const WRITE_TRANSLATION: u8 = 4;

pub const VERIFY: u8 = 5;

// The last language.
const MOST_LANGUAGE: u8 = 3;

impl Command {
    // Kept: four, one for each act: one with the act as a parameter would be `self.act == act`, and the rules name the four (`reads`, `writes`).
    // Act 1 reads the original.
    pub fn reads_original(self) -> bool
        ensures { result ≡ reads Language.original self }
    {
        self.act == READ_ORIGINAL
    }

    // Act 2 reads a translation.
    pub fn reads_translation(self) -> bool
        ensures { result ≡ reads_translation self }
    {
        self.act == READ_TRANSLATION
    }

    // Act 3 writes the original.
    pub fn writes_original(self) -> bool
        ensures { result ≡ writes Language.original self }
    {
        self.act == WRITE_ORIGINAL
    }

    // Act 4 writes a translation.
    pub fn writes_translation(self) -> bool
        ensures { result ≡ writes_translation self }
    {
        self.act == WRITE_TRANSLATION
    }

    // The rules that go by the act: a write is exclusive; act 4 names an edition and no other act does; only a write has a payload; acts 2 and 4
    // name a language, 0 to 3, and the others have 0 there.
    #[tactic(auto, using(crate::proofs::Rules::of_write_original, crate::proofs::Rules::of_write_translation, crate::proofs::Rules::of_read_translation, crate::proofs::Rules::of_others))]
    fn act_ok(self) -> bool
        ensures { result ≡ all (act_checks self) }
    {
        if self.writes_original() {
            return (self.mode == EXCLUSIVE) & (self.edition == 0) & (self.language == 0);
        }
        if self.writes_translation() {
            return (self.mode == EXCLUSIVE)
                & !(self.edition == 0)
                & (self.language <= MOST_LANGUAGE);
        }
        if self.reads_translation() {
            return (self.edition == 0) & (self.length == 0) & (self.language <= MOST_LANGUAGE);
        }
        (READ_ORIGINAL <= self.act)
            & (self.act <= VERIFY)
            & (self.edition == 0)
            & (self.length == 0)
            & (self.language == 0)
    }

    // Whether no update pair was sent.
    fn opens_none(self) -> bool
        ensures { result ≡ opens_none self }
    {
        self.opened == NO_PAIR
    }

    // The update pair: the verifier where none was sent.
    pub fn update(self) -> Pair
        ensures { result ≡ update self }
    {
        if self.opens_none() {
            return self.verifier;
        }
        self.opened
    }

    // The verifier's stamps are valid, and none is above the update pair's.
    #[tactic(auto, unfolding(lists::specs::Table::all, lists::specs::Table::all_from))]
    fn verifier_ok(self) -> bool
        ensures { result ≡ all (verifier_checks self) }
    {
        let verifier = self.verifier;
        let update = self.update();
        stamp_valid(verifier.s)
            & stamp_valid(verifier.x)
            & (verifier.s <= update.s)
            & (verifier.x <= update.x)
    }

    // The update pair, where the mode and the two pairs keep their rules. It is the verifier or what was sent, and each way has its own tests: where none
    // was sent, those of a session are all.
    #[tactic(auto, using(crate::proofs::Opening::opens_verifier, crate::proofs::Opening::opens_no_verifier, crate::proofs::Opening::opens_sent, crate::proofs::Opening::opens_not_sent))]
    fn opens(self) -> Option<Pair>
        ensures { result ≡ cond (all (pair_checks self)) (Some (update self)) None }
    {
        let verifier = self.verifier;
        let sent = self.opened;
        if self.opens_none() {
            if session_ok(self.mode, verifier) {
                return Some(verifier);
            }
            return None;
        }
        if session_ok(self.mode, sent) & self.verifier_ok() {
            return Some(sent);
        }
        None
    }

    // Whether the numbers keep the rules of a command.
    #[tactic(auto, using(crate::proofs::Rules::by_parts, crate::proofs::Opening::is_some_told))]
    pub fn well_formed(self) -> bool
        ensures { result ≡ well_formed self }
    {
        if !self.act_ok() {
            return false;
        }
        if self.opens().is_none() {
            return false;
        }
        mark_whole(self.expected) & mark_whole(self.next)
    }
}

// ---- A command in bytes.

// Where the fields begin that stand at one place in every version.
const ACT: usize = 0;

const MODE: usize = 1;

const CARD: usize = 2;

const VERIFIER: usize = 4;

// Where version 2 has the language.
const LANGUAGE: usize = 20;

const EXPECTED: usize = 36;

const NEXT: usize = 42;

const EDITION: usize = 48;

pub const LENGTH: usize = 50;

// The commit mark that begins at `at`.
fn mark_at(bytes: &[u8], at: usize) -> Mark
    requires { at + 6 ≤ length bytes.now }
    ensures { result ≡ mark_at at bytes.now }
{
    Mark {
        desk: slices::inner::fixed_width::read_u16(bytes, at),
        transaction: slices::inner::fixed_width::read_u32(bytes, at + 2),
    }
}

// Kept: a mark and a pair are read field by field, in widths of their own; one function for both would take the widths and give no type.
// The pair that begins at `at`.
fn pair_at(bytes: &[u8], at: usize) -> Pair
    requires { at + 16 ≤ length bytes.now }
    ensures { result ≡ pair_at at bytes.now }
{
    Pair {
        s: slices::inner::fixed_width::read_u64(bytes, at),
        x: slices::inner::fixed_width::read_u64(bytes, at + 8),
    }
}

// The language that a command names.
fn language_at(v: Version, bytes: &[u8]) -> u8
    requires { 52 ≤ length bytes.now }
    ensures { result ≡ language_at (format_of v) bytes.now }
{
    match v {
        Version::V1 => 0,
        Version::V2 => bytes[LANGUAGE],
    }
}

// Lent bytes as a command of a version, where they are one.
#[tactic(auto, unfolding(crate::specs::Bytes::parsed))]
pub fn parse(v: Version, bytes: &[u8]) -> Option<Command>
    ensures { result ≡ parsed (format_of v) bytes.now }
{
    Some(inner::formed(v, bytes)?.command)
}
