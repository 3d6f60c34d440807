// The numbers that the store answers with, each named once: the names of crates/numbers/specs/Numbers.
#![tactic(auto)]

ghost use Rattle.std.specs.Prelude.{◌≡◌};
ghost use Rattle.numbers.specs.Refusals.{number_of};

// Accepted.
pub const ACCEPTED: u8 = 0;

// ---- Why a request is refused.

// A refusal, by its number.
#[derive(Clone, Copy, PartialEq, Eq)]
pub enum Refusal {
    // A command, an ask or a proposal breaks its rules.
    Malformed = 1,
    // There is no such card.
    NoCard = 2,
    // A later session was accepted for the card. Minuet: EBADSESSION.
    Stale = 3,
    // The expected commit mark does not pass the stored one.
    MarkDiffers = 4,
    // The payload is longer than the room for a text.
    PayloadLong = 5,
    // The translation is behind, or the edition that is named is not the stored one.
    EditionWrong = 6,
    // The original has its last edition.
    EditionsSpent = 7,
    // The text is longer than the buffer for it.
    ReplyShort = 8,
    // The image is not sound, or of another version.
    Unsound = 9,
    // The queue itself breaks its rules, whatever is sent to it.
    BadQueue = 10,
    // The pair that is asked with is too small. Minuet: UpgradeDenied.
    PairDenied = 11,
    // The desk and start stands, and what it asks for is no upgrade.
    StandsAlready = 12,
    // Every lent place is taken, and what is asked for is no upgrade.
    QueueFull = 13,
    // No such image can be made in the lent bytes.
    NotMade = 14,
    // The desk and start that is to leave does not stand.
    NotStanding = 15,
    // The desk has no larger stamp of its own for the card.
    NoStampLeft = 16,
    // A stamp is too far ahead of the stored one.
    TooFar = 17,
    // The first text is ill formed.
    FirstIll = 18,
    // The second text is ill formed.
    SecondIll = 19,
    // The texts part at a step.
    Unmatched = 20,
    // A lease term or a time is outside its limits, or is no number.
    LeaseOutOfRange = 21,
    // One more accepted command would pass a limit of the history engine.
    HistoryFull = 22,
    // The log or the record breaks its layout or its order.
    BadLog = 23,
    // The log has no line or no room left for the record.
    LogFull = 24,
    // The wait for a silent desk is not over.
    LeaseRuns = 25,
    // The append had too few stores of one byte.
    AppendCut = 26,
}

// The refusals that answers are asked for, or given, by number.
pub const MALFORMED: u8 = Refusal::Malformed as u8;

pub const NO_CARD: u8 = Refusal::NoCard as u8;

pub const UNSOUND: u8 = Refusal::Unsound as u8;

pub const BAD_QUEUE: u8 = Refusal::BadQueue as u8;

pub const HISTORY_FULL: u8 = Refusal::HistoryFull as u8;

pub const BAD_LOG: u8 = Refusal::BadLog as u8;

// The number of an outcome: that of the refusal, and 0 where nothing is refused.
pub fn number_of(outcome: Result<(), Refusal>) -> u8
    ensures { result ≡ number_of outcome }
{
    match outcome {
        Ok(()) => ACCEPTED,
        Err(refusal) => refusal as u8,
    }
}
