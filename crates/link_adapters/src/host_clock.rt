//! The clock of a run.

ghost use Rattle.std.specs.Prelude.{◌≡◌, ◌≤◌, pos, ◌*ℤ◌, ◌-ℤ◌, ◌≤ℤ◌, IfOk};
ghost use Rattle.std.specs.Duration.{as_nanos};
ghost use Rattle.std.specs.declared.time.Instant.{Instant};
ghost use Rattle.std.specs.Time.{instant_nanos};
ghost use Rattle.lk_base.specs.Ranges.{IsMoment};
ghost use Rattle.link_adapters.specs.Adapters.{IsMomentFrom, moment_at};

use lk_base::MOMENT_MAX;
use std::sync::Wait;
use std::time::{Clock, Duration, Instant};
use std::{io, thread};

/// Host time: the microseconds since the clock was started. All copies of one clock tell the same time, if they are asked with the same
/// runtime.
#[derive(Clone, Copy)]
pub struct HostClock {
    start: Instant,
}

impl HostClock {
    /// A clock that starts now. The error is the system's, where it tells no time.
    ///
    /// Waits: no. Memory: none.
    pub fn started<R: Clock>(rt: &R) -> io::Result<HostClock> {
        Ok(HostClock {
            start: Instant::now(rt)?,
        })
    }

    /// The moment that it is, in microseconds; at most the last one. The error is the system's, where it tells no time.
    ///
    /// Waits: no. Memory: none.
    pub fn moment<R: Clock>(&self, rt: &R) -> io::Result<i64>
        ensures { IfOk result IsMoment }
    {
        Ok(moment_of(self.start, Instant::now(rt)?))
    }

    /// Sleeps until a moment, and answers the one that it is then, both in microseconds. The error is the system's, where it tells no
    /// time.
    ///
    /// Waits: for the moment. Memory: none.
    pub fn sleep_until<R: Clock + Wait>(&self, rt: &R, moment: i64) -> io::Result<i64>
        requires { IsMoment moment }
        ensures { IfOk result (IsMomentFrom moment) }
    {
        for _ in rt.forever() {
            let now = self.moment(rt)?;
            if moment <= now {
                return Ok(now);
            }
            thread::sleep(rt, span(now, moment));
        }
        unreachable!()
    }
}

/// The moment of a reading of a clock, in microseconds: what has gone by since the start, in whole ones, and at most the last moment.
pub fn moment_of(start: Instant, now: Instant) -> i64
    ensures value { result ≡ moment_at start now }
    ensures range { IsMoment result }
    ensures forward { (before : Instant) → instant_nanos before ≤ instant_nanos now → moment_at start before ≤ℤ result }
{
    let micros = now.duration_since(start).as_micros();
    i64::try_from(micros).unwrap_or(MOMENT_MAX).min(MOMENT_MAX)
}

/// The span from a moment to a later time, both in microseconds.
pub fn span(now: i64, later: i64) -> Duration
    requires moment { IsMoment now }
    requires order { now ≤ℤ later }
    ensures { pos (as_nanos result) ≡ pos 1_000 *ℤ (later -ℤ now) }
{
    Duration::from_micros((later - now).unsigned_abs())
}
