// One well-formed command for an existing card.
ghost use Rattle.std.specs.Prelude.{◌≡◌, true, ◌||◌, reverse, ◌+◌, ◌≤◌, ltb, length};
ghost use Rattle.formats.specs.Format.{V1, fixed};
ghost use Rattle.lists.specs.Parts.{splice};
ghost use Rattle.stream.specs.Stream.{commands, end_of};
ghost use Rattle.history.specs.Engine.{most_kept, most_payload, read_from};
ghost use Rattle.commands.specs.Bytes.{fields_of, formed};
ghost use Rattle.history.specs.Lent.{history_size};
ghost use Rattle.history.specs.inner.Steps.{weighed, history_carried};

use crate::inner::kept::{Totals, entry_of, text_of, totals_of};
use crate::{HistoryAnswer, MOST_KEPT, MOST_PAYLOAD, SIZE};
use commands::{Command, WRITE_ORIGINAL, WRITE_TRANSLATION};
use guard::Judged;
use numbers::{ACCEPTED, HISTORY_FULL};

// What an entry says of a command, and the byte where the kept commands end.
#[derive(Clone, Copy)]
pub struct Weighed {
    pub judged: Judged,
    pub end: usize,
}

// Row 22: one more command with so many payload bytes would pass either limit.
fn full(x: Totals, length: u16) -> bool
    requires { (x.count ≤ history_size) × (x.payloads ≤ history_size) }
    ensures { result ≡ (ltb most_kept (x.count + 1) || ltb most_payload (length + x.payloads)) }
{
    (MOST_KEPT < x.count + 1) | (MOST_PAYLOAD < (length as usize) + x.payloads)
}

// The entry of the command's card, worked out from the kept commands, judges it; 22 comes last.
pub fn weigh(kept: &[u8], c: Command, room: u16, lent: usize) -> Weighed
    requires { length kept.now ≤ history_size }
    ensures judged { result.judged ≡ weighed (reverse (commands V1 kept.now)) c room lent }
    ensures end { result.end ≡ end_of V1 kept.now }
    ensures fits { result.judged.number ≡ 0 → result.end + fixed V1 + c.length ≤ history_size }
{
    let e = entry_of(kept, c.card);
    let x = totals_of(kept);
    let judged = e.judge(c, room, lent);
    let end = x.end;
    if judged.number != ACCEPTED {
        return Weighed { judged, end };
    }
    if full(x, c.length) {
        let refused = Judged {
            number: HISTORY_FULL,
            entry: e,
        };
        return Weighed {
            judged: refused,
            end,
        };
    }
    Weighed { judged, end }
}

// Copies the text that an accepted command reads, if any, into the first bytes of the reply buffer.
pub fn show(kept: &[u8], c: Command, reply: &mut [u8])
    requires { length (read_from (reverse (commands V1 kept.now)) c) ≤ length reply.old }
    ensures { reply.new ≡ splice 0 (read_from (reverse (commands V1 kept.now)) c) reply.old }
{
    if c.reads_original() {
        slices::inner::put(reply, 0, text_of(kept, c.card, WRITE_ORIGINAL));
        return;
    }
    if c.reads_translation() {
        slices::inner::put(reply, 0, text_of(kept, c.card, WRITE_TRANSLATION));
    }
}

// A command for a card that exists: it is weighed, and an accepted one is kept.
pub fn carry(
    kept: &mut [u8],
    used: usize,
    c: Command,
    room: u16,
    command: &[u8],
    reply: &mut [u8],
) -> HistoryAnswer
    requires { (length kept.old ≡ history_size) × (formed V1 command.now ≡ true) × (c ≡ fields_of V1 command.now) }
    ensures answer { result.answer ≡ (history_carried room kept.old used c command.now reply.old).answer }
    ensures used { result.used ≡ (history_carried room kept.old used c command.now reply.old).used }
    ensures kept { kept.new ≡ (history_carried room kept.old used c command.now reply.old).bytes }
    ensures reply { reply.new ≡ (history_carried room kept.old used c command.now reply.old).reply }
{
    let count = used.min(SIZE);
    let w = weigh(&kept[..count], c, room, reply.len());
    let judged = w.judged;
    let end = w.end;
    if judged.number != ACCEPTED {
        return HistoryAnswer {
            answer: guard::reply(judged, c),
            used,
        };
    }
    show(&kept[..count], c, reply);
    slices::inner::put(kept, end, command);
    HistoryAnswer {
        answer: guard::reply(judged, c),
        used: end + command.len(),
    }
}
