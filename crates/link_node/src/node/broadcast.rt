//! Alives to all destinations.

use crate::node::Node;
use crate::sends::Sends;

/// How long after the last broadcast the next one is due, in microseconds.
pub(super) const PERIOD: i64 = 250_000;

/// And how long where there is something new to tell.
pub(super) const SHORT_PERIOD: i64 = 50_000;

impl Node {
    ghost use Rattle.std.specs.Prelude.{◌≡◌, ◌≤◌, ◌+◌, ◌++◌, length};
    ghost use Rattle.link_node.specs.Broadcast.{is_broadcast, broadcast_after, broadcast_in};
    ghost use Rattle.link_node.specs.Machine.{Machine};
    ghost use Rattle.link_node.specs.Standing.{HasParts, gates_of, app_of, audio_of};

    // Alives go out where they are due.
    pub(super) fn broadcast(&mut self, sends: &mut Sends)
        requires room { length sends.old + 128 ≤ 160 }
        ensures stands { (m : Machine) → HasParts self.old m → HasParts self.new (broadcast_after m) }
        ensures gates { gates_of self.new ≡ gates_of self.old }
        ensures app { app_of self.new ≡ app_of self.old }
        ensures audio { audio_of self.new ≡ audio_of self.old }
        ensures sends { (m : Machine) → HasParts self.old m → sends.new ≡ sends.old ++ broadcast_in m }
        ensures len { length sends.new ≤ length sends.old + 128 }
    {
        if self.is_broadcast() {
            self.send_alives(sends);
            self.last_broadcast = Some(self.moment);
            self.changed = false;
        }
    }

    // Whether they are due.
    fn is_broadcast(&self) -> bool
        ensures { (m : Machine) → HasParts self.now m → result ≡ is_broadcast m }
    {
        match self.last_broadcast {
            Some(last) => {
                last + PERIOD <= self.moment || (self.changed && last + SHORT_PERIOD <= self.moment)
            }
            None => true,
        }
    }
}
