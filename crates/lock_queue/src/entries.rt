// An entry's desk and its rules, and the entries that stand in a queue.
ghost use Rattle.std.specs.Prelude.{◌≡◌};
ghost use Rattle.lock_queue.specs.Queue.{desk, standing, state};
ghost use Rattle.lock_queue.specs.Good.{waiting_formed};

use crate::{MOST_PLACES, Queue, Waiting};

impl Waiting {
    // The desk and start that the entry is of.
    pub(crate) fn desk(self) -> u32
        ensures { result ≡ desk self }
    {
        stamps::desk_of(self.mode, self.pair)
    }

    // Whether the entry's mode and stamps keep the rules for sessions.
    pub(crate) fn formed(self) -> bool
        ensures { result ≡ waiting_formed self }
    {
        stamps::session_ok(self.mode, self.pair)
    }
}

impl Queue {
    // The entries that stand, from the front.
    pub(crate) fn standing(&self) -> &[Waiting]
        ensures { result.now ≡ standing (state self.now) }
    {
        &self.places.at[..self.count.min(MOST_PLACES)]
    }
}
