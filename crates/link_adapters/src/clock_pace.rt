//! A pace over the clock of the run.

ghost use Rattle.std.specs.Prelude.{◌≡◌, ◌≤ℤ◌, None};
ghost use Rattle.lk_base.specs.Ranges.{IsMoment};
ghost use Rattle.lk_outside.specs.Pace.{IsPaced};

use crate::HostClock;
use lk_outside::Pace;
use std::sync::Wait;
use std::time::Clock;

/// A pace that sleeps until a moment comes.
#[derive(Drop)]
pub struct ClockPace<R: Clock + Wait + Drop> {
    rt: R,
    clock: HostClock,
}

impl<R: Clock + Wait + Drop> ClockPace<R> {
    /// A pace by this clock, which `rt` reads.
    pub fn new(rt: R, clock: HostClock) -> Self
        ensures { (result.rt ≡ rt) × (result.clock ≡ clock) }
    {
        ClockPace { rt, clock }
    }
}

impl<R: Clock + Wait + Drop> Pace for ClockPace<R> {
    ghost late = { λ _. None };

    // Waits: for the moment. Memory: none. Where the system tells no time, the moment that was asked for is answered, at once.
    fn until(&mut self, moment: i64) -> i64
        requires { IsMoment moment }
        ensures answer { IsPaced None moment result }

        // It doesn't come back early.
        ensures from { moment ≤ℤ result }
    {
        match self.clock.sleep_until(&self.rt, moment) {
            Ok(now) => now,
            Err(_) => moment,
        }
    }
}
