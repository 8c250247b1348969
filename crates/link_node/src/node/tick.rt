//! Time alone: what is over ends, and what is due begins.

use crate::node::Node;
use crate::node::measuring::ping_to;
use crate::sends::Sends;
use lk_base::NodeId;
use ping_measure::Measure;

impl Node {
    ghost use Rattle.std.specs.Prelude.{◌≡◌, ◌⊎◌, ◌≤◌, ◌<◌, ◌+◌, ◌++◌, length, false, IsSome, None};
    ghost use Rattle.peer_gateway.specs.Answers.{target_of};
    ghost use Rattle.session_choice.specs.History.{History, Taking, forgotten};
    ghost use Rattle.session_choice.specs.History as sessions;
    ghost use Rattle.link_node.specs.Beginning.{IsNext, left_of};
    ghost use Rattle.link_node.specs.Machine.{Machine, session_in};
    ghost use Rattle.link_node.specs.Standing.{HasParts, gates_of, app_of, audio_of};
    ghost use Rattle.link_node.specs.Tick.{is_measured, is_needed, is_remeasured, is_waiting, waiting_with, pruned, idle_forgotten, remeasure_queued, begun, begun_one, pings_at, pings_begun, ticked, pings_of_tick};
    ghost use Rattle.link_node.specs.WellFormed.{AreSessions};

    // In this order.
    pub(super) fn tick(&mut self, sends: &mut Sends)
        requires room { length sends.old + 2 ≤ 160 }
        ensures stands { (m : Machine) → AreSessions m → HasParts self.old m → HasParts self.new (ticked m) }
        ensures sends { (m : Machine) → AreSessions m → HasParts self.old m → sends.new ≡ sends.old ++ pings_of_tick m }
        ensures len { length sends.new ≤ length sends.old + 1 }
        ensures gates { gates_of self.new ≡ gates_of self.old }
        ensures app { app_of self.new ≡ app_of self.old }
        ensures audio { audio_of self.new ≡ audio_of self.old }
    {
        self.prune();
        self.forget_idle();
        self.tick_measurement(sends);
        self.queue_remeasuring();
        self.begin(sends);
    }

    // Rows at their limits end.
    fn prune(&mut self)
        ensures stands { (m : Machine) → HasParts self.old m → HasParts self.new (pruned m) }
        ensures gates { gates_of self.new ≡ gates_of self.old }
        ensures app { app_of self.new ≡ app_of self.old }
        ensures audio { audio_of self.new ≡ audio_of self.old }
    {
        let _ended = self.peers.prune(self.moment);
    }

    // Another session without a row, that isn't measured and doesn't wait, is forgotten.
    fn forget_idle(&mut self)
        ensures stands { (m : Machine) → HasParts self.old m → HasParts self.new (idle_forgotten m) }
        ensures gates { gates_of self.new ≡ gates_of self.old }
        ensures app { app_of self.new ≡ app_of self.old }
        ensures audio { audio_of self.new ≡ audio_of self.old }
    {
        let mut k = 0;
        while k < self.sessions.other_count() {
            let session = self.sessions.other(k);
            if self.is_needed(session) {
                k += 1;
            } else {
                self.forget(session);
            }
        }
    }

    // Another session is forgotten.
    fn forget(&mut self, session: NodeId)
        ensures stands { (m : Machine) → HasParts self.old m
            → HasParts self.new (record m { sessions = forgotten session m.sessions }) }
        ensures sessions { (h : History) → sessions.StandsFor self.old.sessions h
            → sessions.StandsFor self.new.sessions (forgotten session h) }
        ensures gates { gates_of self.new ≡ gates_of self.old }
        ensures app { app_of self.new ≡ app_of self.old }
        ensures audio { audio_of self.new ≡ audio_of self.old }
    {
        let _was_known = self.sessions.forget(session);
    }

    // Whether another session has a row, is measured, or waits.
    fn is_needed(&self, session: NodeId) -> bool
        ensures { (m : Machine) (taking : Taking) → HasParts self.now m → taking.session ≡ session → result ≡ is_needed m taking }
    {
        self.peers.has(session) || (self.is_measured(session) || self.is_waiting(session))
    }

    // Whether it is the one that is measured.
    fn is_measured(&self, session: NodeId) -> bool
        ensures { (m : Machine) → HasParts self.now m → result ≡ is_measured session m.measuring }
    {
        match &self.measure {
            Some(measure) => measure.session() == session,
            None => false,
        }
    }

    // Where the current session is to be measured anew, it waits, unless it does already.
    fn queue_remeasuring(&mut self)
        ensures stands { (m : Machine) → (is_waiting (session_in m) m.waiting ≡ false → length m.waiting < 65)
            → HasParts self.old m → HasParts self.new (remeasure_queued m) }
        ensures measure { self.new.measure ≡ self.old.measure }
        ensures gates { gates_of self.new ≡ gates_of self.old }
        ensures app { app_of self.new ≡ app_of self.old }
        ensures audio { audio_of self.new ≡ audio_of self.old }
    {
        if self.is_remeasured() {
            self.remeasure_at = None;
            self.wait_once();
        }
    }

    // Whether it is time to measure the current session anew.
    fn is_remeasured(&self) -> bool
        ensures { (m : Machine) → HasParts self.now m → result ≡ is_remeasured m.remeasure_at m.moment }
    {
        match self.remeasure_at {
            Some(at) => at <= self.moment,
            None => false,
        }
    }

    // The current session waits, after all others, unless it does already.
    fn wait_once(&mut self)
        ensures stands { (m : Machine) → (is_waiting (session_in m) m.waiting ≡ false → length m.waiting < 65)
            → HasParts self.old m → HasParts self.new (record m { waiting = waiting_with (session_in m) m.waiting }) }
        ensures measure { self.new.measure ≡ self.old.measure }
        ensures gates { gates_of self.new ≡ gates_of self.old }
        ensures app { app_of self.new ≡ app_of self.old }
        ensures audio { audio_of self.new ≡ audio_of self.old }
    {
        let session = self.sessions.current().session;
        if !self.is_waiting(session) {
            self.wait(session);
        }
    }

    // Whether a session waits.
    fn is_waiting(&self, session: NodeId) -> bool
        ensures { (m : Machine) → HasParts self.now m → result ≡ is_waiting session m.waiting }
    {
        self.waiting.contains(&session)
    }

    // The sessions that wait are measured in order, where none is; one without a target can't be. At most one ping is sent, and
    // none where a measurement runs.
    fn begin(&mut self, sends: &mut Sends)
        requires room { length sends.old < 160 }
        ensures stands { (m : Machine) → HasParts self.old m → HasParts self.new (begun m) }
        ensures sends { (m : Machine) → HasParts self.old m → sends.new ≡ sends.old ++ pings_begun m }
        ensures none { IsSome self.old.measure → sends.new ≡ sends.old }
        ensures len { length sends.new ≤ length sends.old + 1 }
        ensures gates { gates_of self.new ≡ gates_of self.old }
        ensures app { app_of self.new ≡ app_of self.old }
        ensures audio { audio_of self.new ≡ audio_of self.old }
    {
        while let Some(session) = self.take_first() {
            self.begin_one(session, sends);
        }
    }

    // The first session that waits, where no measurement runs.
    fn take_first(&mut self) -> Option<NodeId>
        ensures stands { (m : Machine) → HasParts self.old m
            → IsNext m.measuring m.waiting result × HasParts self.new (record m { waiting = left_of result m.waiting }) }
        ensures measure { self.new.measure ≡ self.old.measure }
        ensures none { IsSome self.old.measure → result ≡ None }
        ensures shorter { IsSome result → length self.new.waiting.items < length self.old.waiting.items }
        ensures gates { gates_of self.new ≡ gates_of self.old }
        ensures app { app_of self.new ≡ app_of self.old }
        ensures audio { audio_of self.new ≡ audio_of self.old }
    {
        if self.measure.is_some() || self.waiting.is_empty() {
            return None;
        }
        Some(self.waiting.remove(0))
    }

    // By its target a measurement begins.
    fn begin_one(&mut self, session: NodeId, sends: &mut Sends)
        requires room { length sends.old < 160 }
        ensures stands { (m : Machine) → HasParts self.old m → HasParts self.new (begun_one session m) }
        ensures sends { (m : Machine) → HasParts self.old m → sends.new ≡ sends.old ++ pings_at (target_of session m.life) m.moment }
        ensures len { length sends.new ≤ length sends.old + 1 }
        ensures silent { (sends.new ≡ sends.old) ⊎ IsSome self.new.measure }
        ensures waiting { self.new.waiting ≡ self.old.waiting }
        ensures gates { gates_of self.new ≡ gates_of self.old }
        ensures app { app_of self.new ≡ app_of self.old }
        ensures audio { audio_of self.new ≡ audio_of self.old }
    {
        match self.peers.target(session) {
            Some(target) => {
                let (measure, ping) = Measure::start(target, session, self.moment);
                self.measure = Some(measure);
                sends.push(ping_to(&target, &ping));
            }
            None => self.give_up(session),
        }
    }
}
