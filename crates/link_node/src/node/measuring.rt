//! What follows from a measurement's answers.

ghost use Rattle.std.specs.Prelude.{◌≡◌, ◌<◌, ◌≤◌, ◌+◌, ◌++◌, length};
ghost use Rattle.link_node.specs.Event.{sending_value};
ghost use Rattle.link_node.specs.Measuring.{pings_of};
ghost use Rattle.link_node.specs.Measuring as spec;

use crate::node::Node;
use crate::node::settling::STILL;
use crate::sends::{Sending, Sends};
use asdp_messages::write_ping_message;
use ghost_xform::XForm;
use link_payload::{PingFields, PongFields};
use lk_base::{Endpoint, Gate, NodeId, Target};
use ping_measure::Outcome;
use session_choice::Verdict;

/// After how long the current session is measured anew, in microseconds.
const REMEASURING: i64 = 30_000_000;

impl Node {
    ghost use Rattle.std.specs.Prelude.{◌≡◌, ◌⊎◌, ◌≤◌, ◌<◌, ◌+◌, ◌++◌, [], length, IsSome};
    ghost use Rattle.lk_base.specs.Ranges.{IsWithinLimit};
    ghost use Rattle.link_payload.specs.declared.fields.PingFields.{PingFields};
    ghost use Rattle.ping_measure.specs.declared.outcome.Outcome.TheVariants.{Again};
    ghost use Rattle.session_choice.specs.History.{measured_of, measured_after};
    ghost use Rattle.link_node.specs.Machine.{Machine};
    ghost use Rattle.link_node.specs.Measuring.{judged, measured, unmeasured, remeasured_later, pong_heard, pings_after_pong, measurement_ticked, pings_after_tick, pings_of};
    ghost use Rattle.link_node.specs.Standing.{HasParts, gates_of, app_of, audio_of};

    // A pong goes to the measurement that runs.
    pub(super) fn hear_pong(
        &mut self,
        gate: Gate,
        from: Endpoint,
        pong: &PongFields,
        sends: &mut Sends,
    )
        requires ghost_time { IsWithinLimit pong.now.ghost_time }
        requires host { IsWithinLimit pong.now.host }
        requires previous { IsWithinLimit pong.now.previous }
        requires room { length sends.old < 160 }
        ensures stands { (m : Machine) → HasParts self.old m → HasParts self.new (pong_heard gate from pong.now m) }
        ensures sends { (m : Machine) → HasParts self.old m → sends.new ≡ sends.old ++ pings_after_pong gate from pong.now m }
        ensures len { length sends.new ≤ length sends.old + 1 }
        ensures gates { gates_of self.new ≡ gates_of self.old }
        ensures app { app_of self.new ≡ app_of self.old }
        ensures audio { audio_of self.new ≡ audio_of self.old }
    {
        let now = self.moment;
        let Some(measure) = &mut self.measure else {
            return;
        };
        let session = measure.session();
        let target = measure.target();
        let outcome = measure.pong(gate, from, pong, now);
        send_ping(&outcome, &target, sends);
        self.judge(&outcome, session);
    }

    // A tick goes to it. Nothing is sent where none runs afterwards.
    pub(super) fn tick_measurement(&mut self, sends: &mut Sends)
        requires room { length sends.old < 160 }
        ensures stands { (m : Machine) → HasParts self.old m → HasParts self.new (measurement_ticked m) }
        ensures sends { (m : Machine) → HasParts self.old m → sends.new ≡ sends.old ++ pings_after_tick m }
        ensures len { length sends.new ≤ length sends.old + 1 }
        ensures silent { (sends.new ≡ sends.old) ⊎ IsSome self.new.measure }
        ensures gates { gates_of self.new ≡ gates_of self.old }
        ensures app { app_of self.new ≡ app_of self.old }
        ensures audio { audio_of self.new ≡ audio_of self.old }
    {
        let now = self.moment;
        let Some(measure) = &mut self.measure else {
            return;
        };
        let session = measure.session();
        let target = measure.target();
        let outcome = measure.tick(now);
        send_ping(&outcome, &target, sends);
        self.judge(&outcome, session);
    }

    // Its last answers end it.
    fn judge(&mut self, outcome: &Outcome, session: NodeId)
        ensures stands { (m : Machine) → HasParts self.old m → HasParts self.new (judged outcome.now session m) }
        ensures again { (ping : PingFields) → outcome.now ≡ Again ping → self.new.measure ≡ self.old.measure }
        ensures gates { gates_of self.new ≡ gates_of self.old }
        ensures app { app_of self.new ≡ app_of self.old }
        ensures audio { audio_of self.new ≡ audio_of self.old }
    {
        match outcome {
            Outcome::Idle | Outcome::Again(_) => {}
            Outcome::Done(xform) => {
                self.measure = None;
                self.choose(session, *xform);
            }
            Outcome::Failed(_) => {
                self.measure = None;
                self.give_up(session);
            }
        }
    }

    // A session was measured.
    fn choose(&mut self, session: NodeId, xform: XForm)
        ensures stands { (m : Machine) → HasParts self.old m → HasParts self.new (measured session xform.offset m) }
        ensures gates { gates_of self.new ≡ gates_of self.old }
        ensures app { app_of self.new ≡ app_of self.old }
        ensures audio { audio_of self.new ≡ audio_of self.old }
    {
        match self.weigh(session, xform) {
            Verdict::Joined => {
                self.forget_starts();
                self.renew();
                self.remeasure_later();
            }
            Verdict::Remeasured => {
                self.renew();
                self.remeasure_later();
            }
            Verdict::Stayed | Verdict::Unknown => {}
        }
    }

    // Its offset goes to the sessions.
    fn weigh(&mut self, session: NodeId, xform: XForm) -> Verdict
        ensures answer { (m : Machine) → HasParts self.old m → result ≡ measured_of m.sessions session xform.offset m.moment }
        ensures stands { (m : Machine) → HasParts self.old m
            → HasParts self.new (record m { sessions = measured_after m.sessions session xform.offset m.moment }) }
        ensures gates { gates_of self.new ≡ gates_of self.old }
        ensures app { app_of self.new ≡ app_of self.old }
        ensures audio { audio_of self.new ≡ audio_of self.old }
    {
        self.sessions.measured(session, xform, self.moment)
    }

    // A session that is joined has no start yet.
    fn forget_starts(&mut self)
        ensures stands { (m : Machine) → HasParts self.old m → HasParts self.new (record m { starts = [] }) }
        ensures gates { gates_of self.new ≡ gates_of self.old }
        ensures app { app_of self.new ≡ app_of self.old }
        ensures audio { audio_of self.new ≡ audio_of self.old }
    {
        self.session_start = STILL;
    }

    // A session couldn't be measured: another one is forgotten, and the rows of its peers stay.
    pub(super) fn give_up(&mut self, session: NodeId)
        ensures stands { (m : Machine) → HasParts self.old m → HasParts self.new (unmeasured session m) }
        ensures waiting { self.new.waiting ≡ self.old.waiting }
        ensures gates { gates_of self.new ≡ gates_of self.old }
        ensures app { app_of self.new ≡ app_of self.old }
        ensures audio { audio_of self.new ≡ audio_of self.old }
    {
        if self.is_current(session) {
            self.remeasure_later();
        } else {
            let _was_known = self.sessions.forget(session);
        }
    }

    // The current session is measured anew 30 seconds from now.
    fn remeasure_later(&mut self)
        ensures stands { (m : Machine) → HasParts self.old m → HasParts self.new (remeasured_later m) }
        ensures waiting { self.new.waiting ≡ self.old.waiting }
        ensures gates { gates_of self.new ≡ gates_of self.old }
        ensures app { app_of self.new ≡ app_of self.old }
        ensures audio { audio_of self.new ≡ audio_of self.old }
    {
        self.remeasure_at = Some(self.moment + REMEASURING);
    }
}

// The ping that the measurement asks for.
fn send_ping(outcome: &Outcome, target: &Target, sends: &mut Sends)
    requires { length sends.old < 160 }
    ensures sends { sends.new ≡ sends.old ++ pings_of outcome.now target.now }
    ensures len { length sends.new ≤ length sends.old + 1 }
{
    if let Outcome::Again(ping) = outcome {
        sends.push(ping_to(target, ping));
    }
}

// A ping on its way to its target.
#[tactic(auto, unfolding(crate::specs::Measuring::ping_to))]
pub(super) fn ping_to(target: &Target, ping: &PingFields) -> Sending
    ensures { sending_value result ≡ spec.ping_to target.now ping.now }
{
    Sending {
        gate: target.gate,
        to: target.endpoint,
        bytes: write_ping_message(ping),
    }
}
