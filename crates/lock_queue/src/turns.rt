// What a request makes of a queue, or why it is refused, and the outcome that tells it.
ghost use Rattle.std.specs.Prelude.{◌≡◌, IfOk, MatchResult};
ghost use Rattle.numbers.specs.Refusals.{number_of};
ghost use Rattle.lock_queue.specs.Queue.{state};
ghost use Rattle.lock_queue.specs.Requests.{answered, applied, asks, leaves, lapses, number};

use crate::inner::answer::answered;
use crate::inner::effects::{joined, queue_joined, without};
use crate::{LeaseExpiry, LockOutcome, Queue, Waiting, judge};
use numbers::{ACCEPTED, Refusal};

// The queue that the entry has joined.
pub(crate) fn asked(queue: Queue, lent: usize, new: Waiting) -> Result<Queue, Refusal>
    ensures told { number_of result ≡ number lent (state queue) (asks new) }
    ensures made { IfOk result (λ now. state now ≡ applied (asks new) (state queue)) }
{
    judge::asking(&queue, lent, new)?;
    Ok(joined(queue_joined(queue, new), new))
}

// The queue that the desk has left.
pub(crate) fn left(queue: Queue, lent: usize, desk: u32) -> Result<Queue, Refusal>
    ensures told { number_of result ≡ number lent (state queue) (leaves desk) }
    ensures made { IfOk result (λ now. state now ≡ applied (leaves desk) (state queue)) }
{
    judge::leaving(&queue, lent, desk)?;
    Ok(without(queue, desk))
}

// The queue that the silent desk was taken out of.
pub(crate) fn lapsed(queue: Queue, lent: usize, expiry: LeaseExpiry) -> Result<Queue, Refusal>
    ensures told { number_of result ≡ number lent (state queue) (lapses expiry) }
    ensures made { IfOk result (λ now. state now ≡ applied (lapses expiry) (state queue)) }
{
    judge::lapsing(&queue, lent, expiry)?;
    Ok(without(queue, expiry.desk))
}

// The outcome of a request of the desk, sent to the queue at entry.
#[inline(always)]
pub(crate) fn outcome(turned: Result<Queue, Refusal>, desk: u32, entry: &Queue) -> LockOutcome
    ensures answer { result.answer ≡ answered (number_of turned) desk (state entry.now) (state result.queue) }
    ensures queue { MatchResult turned (λ now. result.queue ≡ now) (λ refusal. result.queue ≡ entry.now) }
{
    match turned {
        Ok(queue) => LockOutcome {
            answer: answered(ACCEPTED, desk, entry, &queue),
            queue,
        },
        Err(refusal) => LockOutcome {
            answer: answered(refusal as u8, desk, entry, entry),
            queue: *entry,
        },
    }
}
