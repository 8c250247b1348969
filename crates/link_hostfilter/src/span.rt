//! Between which host times the kept ones lie.

ghost use Rattle.std.specs.Prelude.{◌≡◌, ◌≤ℤ◌, ◌≤◌, ◌^◌, ◌-ℤ◌, unsigned_abs, true};

use crate::pair::{Pair, REACH};

/// From the least to the greatest host time, or further.
#[derive(Clone, Copy)]
pub(crate) struct Span {
    pub low: i64,
    pub high: i64,
}

impl Span {
    ghost use Rattle.link_hostfilter.specs.Span.{AreAmong};

    /// That of no pairs.
    pub(crate) fn none() -> Span {
        Span {
            low: i64::MAX,
            high: i64::MIN,
        }
    }

    /// The least one of some pairs.
    pub(crate) fn of(pairs: &[Pair]) -> Span
        ensures { AreAmong result pairs.now }
    {
        let mut span = Span::none();
        for pair in pairs {
            span = span.with(pair.host);
        }
        span
    }

    /// With one more host time.
    pub(crate) fn with(&self, host: i64) -> Span
        ensures low { result.low ≤ℤ self.now.low }
        ensures high { self.now.high ≤ℤ result.high }
        ensures above { result.low ≤ℤ host }
        ensures below { host ≤ℤ result.high }
    {
        Span {
            low: self.low.min(host),
            high: self.high.max(host),
        }
    }

    /// Whether a host time is within 2^31 of both ends.
    pub(crate) fn is_near(&self, host: i64) -> bool
        ensures low { result ≡ true → unsigned_abs (host -ℤ self.now.low) ≤ 2 ^ 31 }
        ensures high { result ≡ true → unsigned_abs (host -ℤ self.now.high) ≤ 2 ^ 31 }
    {
        host.abs_diff(self.low) <= REACH as u64 && host.abs_diff(self.high) <= REACH as u64
    }

    /// This one, or the least one of the pairs where this one is longer than 2^31.
    pub(crate) fn tightened(&self, pairs: &[Pair]) -> Span
        requires { AreAmong self.now pairs.now }
        ensures { AreAmong result pairs.now }
    {
        if self.high.abs_diff(self.low) > REACH as u64 {
            Span::of(pairs)
        } else {
            *self
        }
    }
}
