//! How full the journal is, and when that is told.

ghost use Rattle.std.specs.Prelude.{◌≡◌, ◌≢◌, ◌⊎◌, ◌↔◌, ◌≤◌, ◌<◌, ◌-◌, ◌/◌, ◌^◌, ℕ, pos, ◌+ℤ◌, ◌≤ℤ◌, ◌<ℤ◌, true, false, IsTrue, IfSome, IfNone};
ghost use Rattle.lk_base.specs.Ranges.{IsMoment};
ghost use Rattle.session_server.specs.Journal as spec;
ghost use Rattle.session_server.specs.Journal.{IsNear, nearest_in};

use crate::mark::Mark;

/// How long a journal is to take nothing before it is taken for full, and how long it isn't looked at at most, in microseconds.
const STILL: i64 = 5_000_000;

const GLANCE: i64 = 1_000_000;

/// How old the newer mark is before a newer one is made, and the older one at least for a forecast, in microseconds.
const SPELL: i64 = 120_000_000;

const LEAST: i64 = 30_000_000;

/// An hour, in microseconds.
const HOUR: i64 = 3_600_000_000;

/// A minute, in microseconds.
const MINUTE: u128 = 60_000_000;

/// The moment of the last receive that was answered, since when that was seen, and when it was looked at last, in microseconds.
#[derive(Clone, Copy, Debug, PartialEq, Eq)]
pub struct Stillness {
    pub received_at: i64,
    pub since: i64,
    pub looked_at: i64,
    ghost since_moment: { IsMoment since },
    ghost looked_moment: { IsMoment looked_at },
}

impl Stillness {
    /// None was answered yet.
    pub fn new() -> Stillness {
        Stillness {
            received_at: 0,
            since: 0,
            looked_at: 0,
        }
    }

    /// Looks at a moment, when a receive was answered last at another. Where that is a new one, or nobody looked for more than a second, it
    /// begins anew.
    ///
    /// Waits: no. Memory: none.
    pub fn look(&mut self, received_at: i64, at: i64)
        requires { IsMoment at }
        ensures received { self.new.received_at ≡ received_at }
        ensures looked { self.new.looked_at ≡ at }
        ensures anew { (received_at ≢ self.old.received_at) ⊎ ((self.old.looked_at +ℤ pos 1_000_000) <ℤ at) → self.new.since ≡ at }
        ensures goes_on { received_at ≡ self.old.received_at → at ≤ℤ (self.old.looked_at +ℤ pos 1_000_000) → self.new.since ≡ self.old.since }
    {
        if self.has_stirred(received_at, at) {
            self.since = at;
        }
        self.received_at = received_at;
        self.looked_at = at;
    }

    // Whether a receive was answered since, or nobody looked for more than a second.
    fn has_stirred(&self, received_at: i64, at: i64) -> bool
        ensures { IsTrue result ↔ ((received_at ≢ self.now.received_at) ⊎ ((self.now.looked_at +ℤ pos 1_000_000) <ℤ at)) }
    {
        received_at != self.received_at || self.looked_at + GLANCE < at
    }

    /// Whether a journal with room for so many events is full, as far as it can be seen from beside it: the port hasn't failed, half of
    /// them or more were counted, and for 5 seconds no receive was answered.
    ///
    /// Waits: no. Memory: none.
    pub fn is_full(&self, failed: bool, events: u64, most: u64, at: i64) -> bool
        requires { IsMoment at }
        ensures { IsTrue result ↔ ((failed ≡ false) × (most / 2 ≤ events) × ((self.now.since +ℤ pos 5_000_000) ≤ℤ at)) }
    {
        !failed && most / 2 <= events && self.since + STILL <= at
    }
}

/// How a journal fills: marks of two and more minutes ago, when it was told how full it is, and within how many minutes it was told last
/// that it will be.
#[derive(Clone, Copy, Debug, PartialEq, Eq)]
pub struct Gauge {
    pub older: Mark,
    pub newer: Mark,
    pub told_at: i64,
    pub nearest: u64,
    ghost told_moment: { IsMoment told_at },
}

impl Gauge {
    /// That of a journal that is empty at a moment. Nothing was told yet.
    pub fn new(at: i64) -> Gauge
        requires { IsMoment at }
        ensures told { result.told_at ≡ at }
        ensures nearest { result.nearest ≡ 2 ^ 64 - 1 }
    {
        let mark = Mark { at, events: 0 };
        Gauge {
            older: mark,
            newer: mark,
            told_at: at,
            nearest: u64::MAX,
        }
    }

    /// Whether it is to be told how full the journal is: an hour has gone by since it was told last, or since it was empty.
    ///
    /// Waits: no. Memory: none.
    pub fn is_hour(&mut self, at: i64) -> bool
        requires { IsMoment at }
        ensures due { IsTrue result ↔ ((self.old.told_at +ℤ pos 3_600_000_000) ≤ℤ at) }
        ensures told { result ≡ true → self.new.told_at ≡ at }
        ensures kept { result ≡ false → self.new ≡ self.old }
        ensures nearest { self.new.nearest ≡ self.old.nearest }
    {
        if at < self.told_at + HOUR {
            return false;
        }
        self.told_at = at;
        true
    }

    /// Moves the marks where the newer of them is two minutes old.
    ///
    /// Waits: no. Memory: none.
    pub fn pass(&mut self, now: Mark)
        ensures moved { (self.old.newer.at +ℤ pos 120_000_000) ≤ℤ now.at → (self.new.older ≡ self.old.newer) × (self.new.newer ≡ now) }
        ensures kept { now.at <ℤ (self.old.newer.at +ℤ pos 120_000_000) → self.new ≡ self.old }
        ensures told { (self.new.told_at ≡ self.old.told_at) × (self.new.nearest ≡ self.old.nearest) }
    {
        if self.newer.at + SPELL <= now.at {
            self.older = self.newer;
            self.newer = now;
        }
    }

    /// Within how many minutes the journal will be full, where it has room for so many events and that is to be told: 60, 10 or 1, each
    /// once.
    ///
    /// Waits: no. Memory: none.
    pub fn warning(&mut self, now: Mark, most: u64) -> Option<u64>
        ensures near { IfSome result (λ minutes. (minutes < self.old.nearest) × (self.new.nearest ≡ minutes) × IsNear self.old.older now most minutes) }
        ensures quiet { IfNone result ((self.new ≡ self.old)
            × ((minutes : ℕ) → IsNear self.old.older now most minutes → self.old.nearest ≤ minutes)) }
    {
        let Some(minutes) = minutes_left(self.older, now, most) else {
            return None;
        };
        if self.nearest <= minutes {
            return None;
        }
        self.nearest = minutes;
        Some(minutes)
    }
}

// Within how many minutes, of 60, 10 and 1, a journal will be full, by what it took since a mark.
fn minutes_left(older: Mark, now: Mark, most: u64) -> Option<u64>
    ensures some { IfSome result (IsNear older now most) }
    ensures none { IfNone result ((minutes : ℕ) → IsNear older now most minutes → ⊥) }
{
    if now.events <= older.events {
        return None;
    }
    if now.at < older.at + LEAST {
        return None;
    }
    nearest_of(left_by(older, now, most))
}

// How many microseconds a journal has left, by what it took since a mark.
fn left_by(older: Mark, now: Mark, most: u64) -> u128
    requires some { older.events < now.events }
    requires later { older.at ≤ℤ now.at }
    ensures { result ≡ spec.left_by older now most }
{
    let span = u128::from((now.at - older.at).unsigned_abs());
    u128::from(most.saturating_sub(now.events)) * span / u128::from(now.events - older.events)
}

// The nearest of an hour, ten minutes and one that so many microseconds are within, in minutes.
fn nearest_of(left: u128) -> Option<u64>
    ensures { result ≡ nearest_in left }
{
    if left <= MINUTE {
        Some(1)
    } else if left <= 10 * MINUTE {
        Some(10)
    } else if left <= 60 * MINUTE {
        Some(60)
    } else {
        None
    }
}
