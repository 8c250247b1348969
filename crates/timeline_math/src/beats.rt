//! The beat at a time, and the time of a beat.

ghost use Rattle.std.specs.Prelude.{◌≡◌, pos, ◌+◌, ◌*◌, ◌^◌, ◌<◌, ◌≤◌, ◌+ℤ◌, ◌-ℤ◌, ◌*ℤ◌, ◌≤ℤ◌, unsigned_abs};
ghost use Rattle.lk_base.specs.Ranges.{IsWithin, IsWithinLimit};
ghost use Rattle.lk_base.specs.Rounding.{clipped_of, nearest_of, rounded_of, signed_of};
ghost use Rattle.lk_base.specs.Timeline.{IsTidy};
ghost use Rattle.timeline_math.specs.Beats as spec;

use lk_base::{LIMIT, Timeline, moved, near};

/// The microbeats of a beat.
pub(crate) const BEAT: i64 = 1_000_000;

/// The beat at a time, in microbeats: rounded to the nearest, halves away from 0, counted from the time
/// origin, and kept within the limit.
pub fn beat_at(tl: &Timeline, time: i64) -> i64
    requires tidy { IsTidy tl.now }
    requires time { IsWithinLimit time }
    ensures value { result ≡ spec.beat_at tl.now time }
    ensures within { IsWithinLimit result }
{
    beat_near(tl, time)
}

// Clicks look at the microsecond before a time.
#[tactic(auto, unfolding(crate::specs::Beats::beat_at))]
pub(crate) fn beat_near(tl: &Timeline, time: i64) -> i64
    requires tidy { IsTidy tl.now }
    requires time { IsWithin (2 ^ 60 + 1) time }
    ensures value { result ≡ spec.beat_at tl.now time }
    ensures within { IsWithinLimit result }
{
    moved_by(tl.beat, between(tl.time, time), BEAT, tl.mpb)
}

/// The time of a beat, in microseconds: rounded to the nearest, halves away from 0, counted from the
/// beat origin, and kept within the limit.
#[tactic(auto, unfolding(crate::specs::Beats::time_at))]
pub fn time_at(tl: &Timeline, beat: i64) -> i64
    requires tidy { IsTidy tl.now }
    requires beat { IsWithinLimit beat }
    ensures value { result ≡ spec.time_at tl.now beat }
    ensures within { IsWithinLimit result }
{
    moved_by(tl.time, between(tl.beat, beat), tl.mpb, BEAT)
}

fn between(from: i64, to: i64) -> i64
    requires from { IsWithinLimit from }
    requires to { IsWithin (2 ^ 60 + 1) to }
    ensures value { result ≡ to -ℤ from }
    ensures within { IsWithin (2 ^ 61 + 1) result }
{
    to - from
}

// An origin moved on by `n * by / per`. Below 2^41, which is 25 days of microseconds, all of it fits in 64 bits.
#[inline(always)]
fn moved_by(origin: i64, n: i64, by: i64, per: i64) -> i64
    requires origin { IsWithinLimit origin }
    requires n { IsWithin (2 ^ 61 + 1) n }
    requires by { (pos 1 ≤ℤ by) × (by ≤ℤ pos 3_000_000) }
    requires per { (pos 1 ≤ℤ per) × (per ≤ℤ pos 3_000_000) }
    ensures value { result ≡ clipped_of (origin +ℤ nearest_of (n *ℤ by) per) }
    ensures within { IsWithinLimit result }
{
    if n.unsigned_abs() < 1 << 41 {
        moved_short(origin, near_short(n, by, per))
    } else {
        moved(origin, near(scaled(n, by), per as i128))
    }
}

fn scaled(n: i64, by: i64) -> i128
    requires n { IsWithin (2 ^ 61 + 1) n }
    requires by { IsWithin (2 ^ 22) by }
    ensures value { result ≡ n *ℤ by }
    ensures within { IsWithin (2 ^ 84) result }
{
    n as i128 * by as i128
}

// `moved` of lk_base, where the sum is short.
fn moved_short(origin: i64, by: i64) -> i64
    requires origin { IsWithinLimit origin }
    requires by { IsWithin (2 ^ 41 * 3_000_000) by }
    ensures value { result ≡ clipped_of (origin +ℤ by) }
    ensures within { IsWithinLimit result }
{
    (origin + by).clamp(-LIMIT, LIMIT)
}

// `near` of lk_base, where the product is short.
#[inline(always)]
fn near_short(n: i64, by: i64, per: i64) -> i64
    requires n { IsWithin (2 ^ 41) n }
    requires by { (pos 1 ≤ℤ by) × (by ≤ℤ pos 3_000_000) }
    requires per { (pos 1 ≤ℤ per) × (per ≤ℤ pos 3_000_000) }
    ensures value { result ≡ nearest_of (n *ℤ by) per }
    ensures within { IsWithin (2 ^ 41 * 3_000_000) result }
{
    with_sign_of(n, rounded(n.unsigned_abs() * by as u64, per as u64))
}

fn rounded(n: u64, d: u64) -> u64
    requires n { n ≤ 2 ^ 41 * 3_000_000 }
    requires positive { 0 < d }
    requires small { d ≤ 3_000_000 }
    ensures value { result ≡ rounded_of n d }
    ensures within { result ≤ n }
{
    (2 * n + d) / (2 * d)
}

fn with_sign_of(n: i64, magnitude: u64) -> i64
    requires { magnitude ≤ 2 ^ 41 * 3_000_000 }
    ensures value { result ≡ signed_of n magnitude }
    ensures within { unsigned_abs result ≤ magnitude }
{
    if n < 0 {
        -(magnitude as i64)
    } else {
        magnitude as i64
    }
}
