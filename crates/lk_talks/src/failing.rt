//! The calls of talks in memory that are to fail: pairs of a kind of call and the number of one call of that kind, from 1. The kinds are
//! the calls of `Talks` in order, from 0.

ghost use Rattle.std.specs.Prelude.{◌≡◌, ◌↔◌, ◌⊎◌, ◌<◌, [], true, false, replicate, slice_set, IsTrue};
ghost use Rattle.lk_outside.specs.Failing.{FailsAt};
ghost use Rattle.lk_outside.specs.Faults.{Rose};
ghost use Rattle.lk_talks.specs.Failures.{next_call_in, one_more};

/// The kind of the calls to listen.
pub const LISTEN: u8 = 0;

/// The kind of the calls to wait.
pub const WAIT: u8 = 1;

/// The kind of the calls to admit.
pub const ADMIT: u8 = 2;

/// The kind of the calls to turn away.
pub const TURN_AWAY: u8 = 3;

/// The kind of the calls to hear.
pub const HEAR: u8 = 4;

/// The kind of the calls to say.
pub const SAY: u8 = 5;

/// The kind of the calls to shut.
pub const SHUT: u8 = 6;

/// The calls that are to fail, how many of each kind were made, and how many failed. The counts stay at their type's last value.
#[derive(Debug, Drop)]
pub struct Failures {
    pub failing: Vec<(u8, u64)>,
    pub calls: [u64; 7],
    pub faults: u64,
}

impl Failures {
    /// No call was made yet.
    pub fn new(failing: Vec<(u8, u64)>) -> Failures
        ensures failing { result.failing.items ≡ failing.items }
        ensures calls { result.calls ≡ replicate 7 0 }
        ensures faults { result.faults ≡ 0 }
    {
        Failures {
            failing,
            calls: [0; 7],
            faults: 0,
        }
    }

    /// Counts one more call of a kind, and whether it fails: it is in the list, or finds no room.
    pub fn fails(&mut self, kind: u8, fits: bool) -> bool
        requires { kind < 7 }
        ensures failing { IsTrue result ↔ (FailsAt self.old.failing.items kind (next_call_in self.old.calls kind) ⊎ (fits ≡ false)) }
        ensures calls { self.new.calls ≡ slice_set self.old.calls kind (next_call_in self.old.calls kind) }
        ensures fault { result ≡ true → self.new.faults ≡ one_more self.old.faults }
        ensures rose { result ≡ true → Rose self.old.faults self.new.faults }
        ensures works { result ≡ false → self.new.faults ≡ self.old.faults }
        ensures list { self.new.failing ≡ self.old.failing }
    {
        let at = usize::from(kind);
        let call = self.calls[at].saturating_add(1);
        self.calls[at] = call;
        let fails = !fits || self.failing.contains(&(kind, call));
        if fails {
            self.faults = self.faults.saturating_add(1);
        }
        fails
    }
}
