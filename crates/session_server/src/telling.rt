//! When what a session shows is told to a person.

ghost use Rattle.std.specs.Prelude.{◌≡◌, ◌≢◌, ◌⊎◌, pos, ◌+ℤ◌, ◌<ℤ◌, ◌≤ℤ◌, ◌^◌, Some, None, IfSome, IfNone};
ghost use Rattle.session_server.specs.Telling.{told_view_of};

use client_state::State;
use link_adapters::Counted;
use lk_base::NodeId;
use std::fmt;

/// How long it is from one line to the next at least, in microseconds.
const PAUSE: i64 = 250_000;

/// What is told of a session: its tempo in microseconds per beat, how many peers it has, whether it plays, and which it is.
#[derive(Clone, Copy, Debug, PartialEq, Eq)]
pub struct View {
    pub mpb: i64,
    pub peers: u32,
    pub playing: bool,
    pub session: NodeId,
}

impl View {
    /// What is told of a state.
    pub fn of(state: &State) -> View
        ensures { result ≡ told_view_of state.now }
    {
        View {
            mpb: state.timeline.mpb,
            peers: state.peers,
            playing: state.start.playing,
            session: state.session,
        }
    }
}

impl fmt::Display for View {
    fn fmt<W: fmt::Write>(&self, f: &mut fmt::Formatter<W>) -> fmt::Result {
        let peers = Counted(u64::from(self.peers), "peer");
        // Hundredths of a beat per minute, to the nearest.
        let mpb = self.mpb.max(1).unsigned_abs();
        let tempo = (6_000_000_000 + mpb / 2) / mpb;
        let (whole, parts) = (tempo / 100, tempo % 100);
        let play = if self.playing { "playing" } else { "stopped" };
        let [a, b, c, d, e, g, h, i] = self.session.0;
        write!(f, "{whole}.{parts:02} beats per minute, {peers}, {play}, ")?;
        write!(
            f,
            "session {a:02x}{b:02x}{c:02x}{d:02x}{e:02x}{g:02x}{h:02x}{i:02x}"
        )
    }
}

/// What was told last, and at which time.
#[derive(Clone, Copy, Debug, PartialEq, Eq)]
pub struct Teller {
    told: Option<View>,
    at: i64,
    ghost last: { at ≤ℤ pos (2 ^ 60) },
}

impl Teller {
    /// Nothing was told yet.
    pub fn new() -> Teller
        ensures { result.told ≡ None }
    {
        Teller { told: None, at: 0 }
    }

    /// What is to be told of a state at a time, in microseconds: what it shows, if nothing was told yet, or if it differs from what was
    /// told last and a quarter of a second has gone by since.
    ///
    /// Waits: no. Memory: none.
    pub fn due(&mut self, state: &State, time: i64) -> Option<View>
        requires { time ≤ℤ pos (2 ^ 60) }
        ensures told { IfSome result (λ view. (view ≡ told_view_of state.now) × (self.new.told ≡ Some view) × (self.new.at ≡ time)) }
        ensures differs { IfSome result (λ view. self.old.told ≢ Some view) }
        ensures seldom { IfSome result (λ view. (self.old.told ≡ None) ⊎ ((self.old.at +ℤ pos 250_000) ≤ℤ time)) }
        ensures quiet { IfNone result ((self.new ≡ self.old) × (self.old.told ≢ None)
            × ((self.old.told ≡ Some (told_view_of state.now)) ⊎ (time <ℤ (self.old.at +ℤ pos 250_000)))) }
    {
        let view = View::of(state);
        if let Some(told) = self.told {
            if told == view || time < self.at + PAUSE {
                return None;
            }
        }
        *self = Teller {
            told: Some(view),
            at: time,
        };
        Some(view)
    }
}
