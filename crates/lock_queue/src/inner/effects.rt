// What an accepted request makes of the lock queue of one card: an entry joins the end, or a desk's entry is taken out.
ghost use Rattle.std.specs.Prelude.{◌≡◌, ◌<◌, ◌≤◌, IsTrue};
ghost use Rattle.lock_queue.specs.Queue.{state, most_places, standing, desk, desks, stands};
ghost use Rattle.lock_queue.specs.Requests.{joined, without, queue_joined};

use crate::inner::state::{place, upgrading};
use crate::{NO_WAITING, Queue, Waiting};

// The queue with the entry at its end and its stamps in the largest pair.
pub fn joined(mut queue: Queue, new: Waiting) -> Queue
    requires { queue.count < most_places }
    ensures { state result ≡ joined new (state queue) }
{
    queue.places.at[queue.count] = new;
    queue.count += 1;
    queue.largest = stamps::larger_of_each(queue.largest, new.pair);
    queue
}

// The queue without the desk's entry.
pub fn without(mut queue: Queue, desk: u32) -> Queue
    requires fits { queue.count ≤ most_places }
    requires there { IsTrue (stands desk (desks (standing (state queue)))) }
    ensures { state result ≡ without desk (state queue) }
{
    let gap = place(queue.standing(), desk).unwrap();
    let count = queue.count;
    queue.places.at.copy_within(gap + 1..count, gap);
    queue.places.at[count - 1] = NO_WAITING;
    queue.count = count - 1;
    queue
}

// The queue that an accepted entry joins: an upgrade's old entry has left it.
pub fn queue_joined(queue: Queue, new: Waiting) -> Queue
    requires { queue.count ≤ most_places }
    ensures { state result ≡ queue_joined new.mode (desk new) (state queue) }
{
    if upgrading(new, queue.standing()) {
        return without(queue, new.desk());
    }
    queue
}
