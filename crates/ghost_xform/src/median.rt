//! The median of some points, and the offset that it gives.

ghost use Rattle.std.specs.Prelude.{◌≡◌, ℤ, pos, ◌+◌, ◌-◌, ◌*◌, ◌/◌, ◌^◌, ◌<◌, ◌+ℤ◌, ◌-ℤ◌, ◌≤ℤ◌, length, All, IsPermutation, IsSorted, unsigned_abs};
ghost use Rattle.std.specs.Ordering.{int_cmp};
ghost use Rattle.lk_base.specs.Ranges.{IsWithin};
ghost use Rattle.ghost_xform.specs.Rank.{HasRank, IsOffsetOf, IsAbout};
ghost use Rattle.ghost_xform.specs.Rank as spec;

use lk_base::{clip, near};

/// The two middle points: those of the ranks (n - 1) / 2 and n / 2 of n points, both rounded down, so that an odd
/// number of points gives the middle one twice. It leaves the points in order.
pub fn middle_pair(points: &mut [i64]) -> (i64, i64)
    requires { 0 < length points.old }
    ensures lower { HasRank points.old ((length points.old - 1) / 2) result.0 }
    ensures upper { HasRank points.old (length points.old / 2) result.1 }
    ensures moved { IsPermutation points.old points.new }
    ensures sorted { IsSorted int_cmp points.new }
{
    points.sort_unstable();
    (points[(points.len() - 1) / 2], points[points.len() / 2])
}

/// The offset that points in half microseconds tell: a quarter of the sum of the two middle ones, rounded to whole
/// microseconds, halves away from 0, and clipped to 2^60. It leaves the points in order.
///
/// Where each point is at most `r` from twice an offset `c`, the answer is at most half of `r + 1` from `c`.
pub fn offset_of(points: &mut [i64]) -> i64
    requires { 0 < length points.old }
    ensures value { result ≡ spec.offset_of points.old }
    ensures offset { IsOffsetOf points.old result }
    ensures within { IsWithin (2 ^ 60) result }
    ensures near { (c r : ℤ) → IsWithin (2 ^ 60) c → All (IsAbout c r) points.old
        → pos (2 * unsigned_abs (result -ℤ c)) ≤ℤ (r +ℤ pos 1) }
    ensures moved { IsPermutation points.old points.new }
    ensures sorted { IsSorted int_cmp points.new }
{
    let (lower, upper) = middle_pair(points);
    clip(near(lower as i128 + upper as i128, 4))
}
