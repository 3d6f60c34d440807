// The history engine for Rust and C.
ghost use Rattle.std.specs.Prelude.{◌≡◌};
ghost use Rattle.guard.specs.Replies.{reply_fields};
ghost use Rattle.history.specs.Lent.{history_serve};

use store::inner::run::fields_of;

// One request to the history engine, for `cards` cards with this room: the accepted commands stand in the first `used` bytes of `kept`. The answer's
// number is returned and its seven reply fields are written to `fields`; the text of an accepted read stands in the first bytes of `reply`.
#[unsafe(no_mangle)]
pub extern "C" fn lupaniele_history_answer(
    kept: &mut [u8; 43168],
    used: &mut u64,
    cards: u16,
    room: u16,
    command: &[u8],
    reply: &mut [u8],
    fields: &mut [u64; 7],
) -> u8
    ensures number { result ≡ (history_serve cards room kept.old used.old command.now reply.old).answer.number }
    ensures fields { fields.new ≡ reply_fields (history_serve cards room kept.old used.old command.now reply.old).answer }
    ensures used { used.new ≡ (history_serve cards room kept.old used.old command.now reply.old).used }
    ensures kept { kept.new ≡ (history_serve cards room kept.old used.old command.now reply.old).bytes }
    ensures reply { reply.new ≡ (history_serve cards room kept.old used.old command.now reply.old).reply }
{
    let before = *used;
    let served = history::answer(kept, before as usize, cards, room, command, reply);
    let answer = served.answer;
    let after = served.used;
    *fields = fields_of(answer);
    *used = after as u64;
    answer.number
}
