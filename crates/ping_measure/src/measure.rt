//! A measurement: its start, its pongs and its ticks.

ghost use Rattle.std.specs.Prelude.{◌≡◌, ℤ, pos, ◌*◌, ◌^◌, ◌+ℤ◌, ◌-ℤ◌, ◌≤ℤ◌, ◌≤◌, ◌<◌, ◌||◌, ◌+◌, int_lt, not, Some, None, false, nat_lt, if◌then◌else◌, unsigned_abs};
ghost use Rattle.arrayvec.specs.ArrayVec.{array_vec_len};
ghost use Rattle.lk_base.specs.Ranges.{IsMoment, IsWithin, IsWithinLimit};

use crate::laws::honest_pongs_bound_the_error;
use crate::outcome::{MeasureFault, Outcome};
use crate::points::{add_points, gives_points, offset_in};
use arrayvec::ArrayVec;
use ghost_xform::XForm;
use link_payload::{PingFields, PongFields};
use lk_base::{Endpoint, Gate, NodeId, Target};

/// How long a ping is waited for, in microseconds.
const PATIENCE: i64 = 50_000;

/// How many points are not yet enough.
const POINTS: usize = 100;

/// The number of silences that ends a measurement.
const SILENCES: u8 = 6;

/// A measurement of one session's clock by one of its peers, the target. It takes no memory, and is moved and lent.
///
/// A pong counts where it comes from the target's gate and endpoint, is of the measured session and gives a point. A
/// pong of the target that is of another session ends the measurement. A silence is a tick at or after the deadline,
/// which is 50,000 microseconds after the last ping. The terms are Link 3's (`Measurement.hpp`); the rule is this
/// project's own.
#[derive(Debug, Drop)]
pub struct Measure {
    target: Target,
    session: NodeId,
    // In half microseconds: at most 100 before a pong, and at most two more with it.
    points: ArrayVec<i64, 102>,
    silences: u8,
    deadline: i64,
    over: bool,
    ghost room: { over ≡ false → array_vec_len points ≤ 100 },
    ghost patient: { over ≡ false → silences < 6 },
}

impl Measure {
    ghost use Rattle.ping_measure.specs.Life.{Life, StandsFor, opening, pong_outcome, pong_after, tick_outcome, tick_after, deadline_of, is_over, with, is_from, counted_outcome, silences_of};
    ghost use Rattle.ping_measure.specs.Accuracy.{AreFair, IfDone};
    ghost use Rattle.ping_measure.specs.Points.{counted, silent, strayed, is_zero};
    ghost use Rattle.ping_measure.specs.declared.outcome.MeasureFault.TheVariants.{OtherSession, Silence};
    ghost use Rattle.ping_measure.specs.declared.outcome.Outcome.TheVariants.{Idle, Again, Failed};

    /// Starts a measurement at the host time `now`, and answers the ping to send first.
    pub fn start(target: Target, session: NodeId, now: i64) -> (Measure, PingFields)
        requires { IsMoment now }
        ensures stands { StandsFor result.0 (opening target session now) }
        ensures ping { result.1 ≡ record { host = now; previous = None } }
    {
        let measure = Measure {
            target,
            session,
            points: ArrayVec::new(),
            silences: 0,
            deadline: now + PATIENCE,
            over: false,
        };
        (measure, first_ping(now))
    }

    /// Takes a pong that came on a gate from an endpoint at the host time `now`.
    ///
    /// `Idle` where the measurement is over, the pong is not from the target's gate and endpoint, or it is of the
    /// measured session and gives no point; all stays as it was then. `Failed` where it is from the target and of
    /// another session, which is named. `Done` where there are more than 100 points with this pong. Else `Again`, with
    /// a ping that carries the pong's ghost time.
    ///
    /// Where every pong counted was honest (its ghost times were read off one clock, `c` ahead of the host's, while the
    /// ping was on its way) and none took longer than `r`, the offset in `Done` is within half of `r + 1` of `c`.
    pub fn pong(&mut self, gate: Gate, from: Endpoint, pong: &PongFields, now: i64) -> Outcome
        requires moment { IsMoment now }
        requires ghost_time { IsWithinLimit pong.now.ghost_time }
        requires host { IsWithinLimit pong.now.host }
        requires previous { IsWithinLimit pong.now.previous }
        ensures answer { (life : Life) → StandsFor self.old life
            → result ≡ pong_outcome life gate from pong.now now }
        ensures stands { (life : Life) → StandsFor self.old life
            → StandsFor self.new (pong_after life gate from pong.now now) }
        ensures accuracy { (life : Life) → StandsFor self.old life
            → (c r : ℤ) → IsWithin (2 ^ 60) c → AreFair c r (pong_after life gate from pong.now now)
            → IfDone result (λ xform. pos (2 * unsigned_abs (xform.offset -ℤ c)) ≤ℤ (r +ℤ pos 1)) }
        ensures idle { result ≡ Idle → self.new ≡ self.old }
    {
        // A law, for the proof: honest pongs bound the error of the offset.
        honest_pongs_bound_the_error();
        if self.passes_over(gate, from) {
            return Outcome::Idle;
        }
        if pong.session != self.session {
            return self.strayed(pong.session);
        }
        if !gives_points(pong) {
            return Outcome::Idle;
        }
        self.counted(pong, now)
    }

    /// Takes the host time `now`.
    ///
    /// `Idle` where the measurement is over or `now` is before its deadline; all stays as it was then. Else a silence:
    /// the first five are `Again`, with a ping that carries no ghost time, and the sixth is `Failed`. A pong doesn't
    /// begin their count anew.
    pub fn tick(&mut self, now: i64) -> Outcome
        requires { IsMoment now }
        ensures answer { (life : Life) → StandsFor self.old life → result ≡ tick_outcome life now }
        ensures stands { (life : Life) → StandsFor self.old life → StandsFor self.new (tick_after life now) }
        ensures idle { result ≡ Idle → self.new ≡ self.old }
    {
        if self.is_early(now) {
            return Outcome::Idle;
        }
        self.silent(now)
    }

    /// The host time at which the last ping counts as not answered, in microseconds.
    pub fn deadline(&self) -> i64
        ensures { (life : Life) → StandsFor self.now life → result ≡ deadline_of life }
    {
        self.deadline
    }

    /// The session that is measured.
    pub fn session(&self) -> NodeId
        ensures { (life : Life) → StandsFor self.now life → result ≡ life.session }
    {
        self.session
    }

    /// The peer that is pinged.
    pub fn target(&self) -> Target
        ensures { (life : Life) → StandsFor self.now life → result ≡ life.target }
    {
        self.target
    }

    /// Whether it is done or has failed.
    pub fn is_over(&self) -> bool
        ensures { (life : Life) → StandsFor self.now life → result ≡ is_over life }
    {
        self.over
    }

    // Whether nothing follows from what comes from there.
    fn passes_over(&self, gate: Gate, from: Endpoint) -> bool
        ensures { result ≡ (self.now.over || not (is_from self.now.target gate from)) }
    {
        self.over || !self.is_from(gate, from)
    }

    // Whether nothing follows from this moment.
    fn is_early(&self, now: i64) -> bool
        ensures { result ≡ (self.now.over || int_lt now self.now.deadline) }
    {
        self.over || now < self.deadline
    }

    // Whether this is where the target answers.
    fn is_from(&self, gate: Gate, from: Endpoint) -> bool
        ensures { result ≡ is_from self.now.target gate from }
    {
        gate == self.target.gate && from == self.target.endpoint
    }

    // The target has gone to another session.
    fn strayed(&mut self, session: NodeId) -> Outcome
        requires { self.old.over ≡ false }
        ensures answer { result ≡ Failed (OtherSession session) }
        ensures stands { (life : Life) → StandsFor self.old life → StandsFor self.new (with life (strayed session)) }
    {
        self.over = true;
        Outcome::Failed(MeasureFault::OtherSession(session))
    }

    // Takes the points of a pong that has some.
    fn counted(&mut self, pong: &PongFields, now: i64) -> Outcome
        requires going { self.old.over ≡ false }
        requires some { (is_zero pong.now.ghost_time || is_zero pong.now.host) ≡ false }
        requires moment { IsMoment now }
        requires ghost_time { IsWithinLimit pong.now.ghost_time }
        requires host { IsWithinLimit pong.now.host }
        requires previous { IsWithinLimit pong.now.previous }
        ensures answer { (life : Life) → StandsFor self.old life → result ≡ counted_outcome life pong.now now }
        ensures stands { (life : Life) → StandsFor self.old life → StandsFor self.new (with life (counted pong.now now)) }
        ensures heard { result ≡ Idle → ⊥ }
    {
        add_points(&mut self.points, pong, now);
        if self.points.len() > POINTS {
            self.over = true;
            let offset = offset_in(&self.points);
            return Outcome::Done(XForm { offset });
        }
        self.deadline = now + PATIENCE;
        Outcome::Again(next_ping(pong, now))
    }

    // A ping was not answered.
    fn silent(&mut self, now: i64) -> Outcome
        requires going { self.old.over ≡ false }
        requires moment { IsMoment now }
        ensures answer { (life : Life) → StandsFor self.old life → result ≡
            (if nat_lt (silences_of life + 1) 6 then Again (record { host = now; previous = None }) else Failed Silence) }
        ensures stands { (life : Life) → StandsFor self.old life → StandsFor self.new (with life (silent now)) }
        ensures heard { result ≡ Idle → ⊥ }
    {
        self.silences += 1;
        if self.silences >= SILENCES {
            self.over = true;
            return Outcome::Failed(MeasureFault::Silence);
        }
        self.deadline = now + PATIENCE;
        Outcome::Again(first_ping(now))
    }
}

// The ping that follows a pong.
fn next_ping(pong: &PongFields, now: i64) -> PingFields
    ensures { result ≡ record { host = now; previous = Some pong.now.ghost_time } }
{
    PingFields {
        host: now,
        previous: Some(pong.ghost_time),
    }
}

// A ping that carries no ghost time.
fn first_ping(now: i64) -> PingFields
    ensures { result ≡ record { host = now; previous = None } }
{
    PingFields {
        host: now,
        previous: None,
    }
}
