// The history engine: it keeps the accepted commands as bytes, end to end, and finds each answer in them; there is no image.
#![tactic(auto)]

pub mod inner;

ghost use Rattle.std.specs.Prelude.{◌≡◌};
ghost use Rattle.history.specs.Lent.{history_serve};

use formats::Version;
use guard::Answer;
use numbers::{MALFORMED, NO_CARD};

// How many commands a history keeps at most, and how many payload bytes these have in all at most.
pub const MOST_KEPT: usize = 200;

pub const MOST_PAYLOAD: usize = 32768;

// The lent bytes: room for a history at both limits.
pub const SIZE: usize = 43168;

// What a request is answered, and how many of the lent bytes are used after it.
#[derive(Clone, Copy)]
pub struct HistoryAnswer {
    pub answer: Answer,
    pub used: usize,
}

// One request for `cards` cards with this room, on the commands kept in the first `used` of the lent bytes. It gives the number, the seven
// reply fields and how many bytes are used now, and leaves the lent bytes and the reply buffer as the rules say; a refusal leaves all as it was.
pub fn answer(
    kept: &mut [u8; SIZE],
    used: usize,
    cards: u16,
    room: u16,
    command: &[u8],
    reply: &mut [u8],
) -> HistoryAnswer
    ensures answer { result.answer ≡ (history_serve cards room kept.old used command.now reply.old).answer }
    ensures used { result.used ≡ (history_serve cards room kept.old used command.now reply.old).used }
    ensures kept { kept.new ≡ (history_serve cards room kept.old used command.now reply.old).bytes }
    ensures reply { reply.new ≡ (history_serve cards room kept.old used command.now reply.old).reply }
{
    let Some(c) = commands::parse(Version::V1, command) else {
        return HistoryAnswer {
            answer: guard::refusal(MALFORMED),
            used,
        };
    };
    if cards <= c.card {
        return HistoryAnswer {
            answer: guard::refusal(NO_CARD),
            used,
        };
    }
    inner::requests::carry(kept, used, c, room, command, reply)
}
