//! The earliest moment at which a tick has work.

ghost use Rattle.std.specs.Prelude.{◌≡◌};
ghost use Rattle.link_node.specs.Due as spec;

use crate::node::Node;
use crate::node::broadcast::{PERIOD, SHORT_PERIOD};

impl Node {
    ghost use Rattle.std.specs.Prelude.{◌≡◌, option_map};
    ghost use Rattle.link_node.specs.Due.{due_of, broadcast_due, waiting_due};
    ghost use Rattle.ping_measure.specs.Life.{deadline_of};
    ghost use Rattle.link_node.specs.Machine.{Machine};
    ghost use Rattle.link_node.specs.Standing.{StandsFor, HasParts};

    /// The earliest moment at which a tick has work, in microseconds: the next broadcast, the end of a peer's row, the
    /// deadline of a ping, the measuring anew, or the present moment where a session waits and none is measured. After a
    /// tick it is greater than the moment.
    pub fn due(&self) -> i64
        ensures { (m : Machine) → StandsFor self.now m → result ≡ due_of m }
    {
        let mut due = self.broadcast_due();
        due = earlier_of(due, self.peers.least_limit());
        due = earlier_of(due, self.deadline());
        due = earlier_of(due, self.remeasure_at);
        earlier_of(due, self.waiting_due())
    }

    // The next broadcast.
    fn broadcast_due(&self) -> i64
        ensures { (m : Machine) → HasParts self.now m → result ≡ broadcast_due m.last_broadcast m.changed m.moment }
    {
        match self.last_broadcast {
            Some(last) => {
                if self.changed {
                    last + SHORT_PERIOD
                } else {
                    last + PERIOD
                }
            }
            None => self.moment,
        }
    }

    // The deadline of the measurement that runs.
    fn deadline(&self) -> Option<i64>
        ensures { (m : Machine) → HasParts self.now m → result ≡ option_map deadline_of m.measuring }
    {
        match &self.measure {
            Some(measure) => Some(measure.deadline()),
            None => None,
        }
    }

    // A session that waits can be measured at once, unless a measurement runs.
    fn waiting_due(&self) -> Option<i64>
        ensures { (m : Machine) → HasParts self.now m → result ≡ waiting_due m.measuring m.waiting m.moment }
    {
        if self.measure.is_some() || self.waiting.is_empty() {
            return None;
        }
        Some(self.moment)
    }
}

// The lesser of the two, where there is a second.
fn earlier_of(at: i64, other: Option<i64>) -> i64
    ensures { result ≡ spec.earlier_of at other }
{
    match other {
        Some(other) => at.min(other),
        None => at,
    }
}
