//! A session that is known.

use crate::verdict::Saw;
use lk_base::{NodeId, Timeline};

/// A session that is known, with the timeline that counts in it.
#[derive(Clone, Copy, Debug, PartialEq, Eq)]
pub struct Known {
    pub session: NodeId,
    pub timeline: Timeline,
}

impl Known {
    ghost use Rattle.std.specs.Prelude.{◌≡◌};
    ghost use Rattle.session_choice.specs.Changes.{saw_held, held_after};

    /// Takes a timeline that was seen in this session: `Taken` where it counts from now on, else `Kept`.
    pub fn see(&mut self, timeline: Timeline) -> Saw
        ensures answer { result ≡ saw_held self.old timeline }
        ensures held { self.new ≡ held_after timeline self.old }
    {
        if self.timeline.beat < timeline.beat {
            self.timeline = timeline;
            Saw::Taken
        } else {
            Saw::Kept
        }
    }
}
