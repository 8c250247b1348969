//! The end of every event: peers are counted, and who has lost them all founds a session.

ghost use Rattle.std.specs.Prelude.{◌≡◌, ◌||◌, not, neg_ℤ};
ghost use Rattle.lk_base.specs.Ranges.{IsMoment};
ghost use Rattle.link_node.specs.Settling.{same_held};

use crate::node::Node;
use ghost_xform::XForm;
use lk_base::{NodeId, SessionStart, Timeline};
use timeline_math::beat_at;

/// A session begins without playing.
pub(super) const STILL: SessionStart = SessionStart {
    playing: false,
    beats: 0,
    stamp: 0,
};

// What alives tell.
#[derive(Clone, Copy, Debug, PartialEq, Eq)]
pub(super) struct Held {
    id: NodeId,
    session: NodeId,
    timeline: Timeline,
    start: SessionStart,
}

impl Node {
    ghost use Rattle.std.specs.Prelude.{◌≡◌};
    ghost use Rattle.link_node.specs.Machine.{Machine};
    ghost use Rattle.link_node.specs.Settling.{settled, counted, is_left, founded, founding_timeline_in, held_in, noted};
    ghost use Rattle.lk_base.specs.Timeline.{IsTidy};
    ghost use Rattle.link_node.specs.Standing.{HasParts, gates_of, app_of, audio_of};

    // Peers are counted. Where there were some and there are none, a session is founded.
    pub(super) fn settle(&mut self)
        ensures stands { (m : Machine) → HasParts self.old m → HasParts self.new (settled m) }
        ensures gates { gates_of self.new ≡ gates_of self.old }
        ensures app { app_of self.new ≡ app_of self.old }
        ensures audio { audio_of self.new ≡ audio_of self.old }
    {
        if self.recount() {
            self.found();
        }
    }

    // Peers are counted. Whether there were some and there are none.
    fn recount(&mut self) -> bool
        ensures answer { (m : Machine) → HasParts self.old m → result ≡ is_left m }
        ensures stands { (m : Machine) → HasParts self.old m → HasParts self.new (counted m) }
        ensures gates { gates_of self.new ≡ gates_of self.old }
        ensures app { app_of self.new ≡ app_of self.old }
        ensures audio { audio_of self.new ≡ audio_of self.old }
    {
        let before = self.peer_count;
        let session = self.sessions.current().session;
        self.peers.watch(session);
        self.peer_count = self.peers.count(session);
        before > 0 && self.peer_count == 0
    }

    // Alone in a session of a new id, whose ghost time is 0 now, and which goes on with the tempo and the beat of the one
    // before.
    fn found(&mut self)
        ensures stands { (m : Machine) → HasParts self.old m → HasParts self.new (founded m) }
        ensures gates { gates_of self.new ≡ gates_of self.old }
        ensures app { app_of self.new ≡ app_of self.old }
        ensures audio { audio_of self.new ≡ audio_of self.old }
    {
        let timeline = self.founding_timeline();
        self.id = self.ids.draw();
        self.sessions
            .reset(self.id, timeline, beginning_at(self.moment));
        self.session_start = STILL;
        self.peers.clear();
        self.waiting.clear();
        self.measure = None;
        self.remeasure_at = None;
        self.renew();
    }

    // The tempo and the beat of the session, at ghost time 0.
    fn founding_timeline(&self) -> Timeline
        ensures value { (m : Machine) → HasParts self.now m → result ≡ founding_timeline_in m }
        ensures tidy { IsTidy result }
    {
        let current = self.sessions.current();
        let beat = beat_at(&current.timeline, current.xform.to_ghost(self.moment));
        Timeline {
            mpb: current.timeline.mpb,
            beat,
            time: 0,
        }
    }

    // What alives tell now.
    pub(super) fn held(&self) -> Held
        ensures { (m : Machine) → HasParts self.now m → result ≡ held_in m }
    {
        let current = self.sessions.current();
        Held {
            id: self.id,
            session: current.session,
            timeline: current.timeline,
            start: self.session_start,
        }
    }

    // Whether there is something new to tell since before the event.
    pub(super) fn note(&mut self, before: &Held)
        ensures stands { (m : Machine) → HasParts self.old m → HasParts self.new (noted before.now m) }
        ensures gates { gates_of self.new ≡ gates_of self.old }
        ensures app { app_of self.new ≡ app_of self.old }
        ensures audio { audio_of self.new ≡ audio_of self.old }
    {
        self.changed = is_changed(self.changed, before, &self.held());
    }
}

// The offset of a session whose ghost time is 0 at this moment.
pub(super) fn beginning_at(moment: i64) -> XForm
    requires { IsMoment moment }
    ensures { result.offset ≡ neg_ℤ moment }
{
    XForm { offset: -moment }
}

// Whether something had changed, or what is held differs from what was held before.
fn is_changed(changed: bool, before: &Held, now: &Held) -> bool
    ensures { result ≡ (changed || not (same_held before.now now.now)) }
{
    changed || before != now
}
