//! Whole numbers nearest to a quotient, and numbers kept within the limit.

ghost use Rattle.std.specs.Prelude.{◌≡◌, ℕ, ℤ, pos, ◌^◌, ◌<◌, ◌≤◌, ◌+ℤ◌, ◌≤ℤ◌, unsigned_abs};
ghost use Rattle.lk_base.specs.Ranges.{IsWithin, IsWithinLimit};
ghost use Rattle.lk_base.specs.Rounding.{IsNearest, clipped_of, nearest_of, rounded_of, signed_of};

use crate::limits::LIMIT;

/// `n` kept within the limit of numbers, from -2^60 to 2^60.
pub fn clip(n: i128) -> i64
    ensures value { result ≡ clipped_of n }
    ensures within { IsWithin (2 ^ 60) result }
    ensures same { IsWithin (2 ^ 60) n → result ≡ n }
{
    n.clamp(-(LIMIT as i128), LIMIT as i128) as i64
}

/// An origin that is moved on by so much, kept within the limit.
pub fn moved(origin: i64, by: i128) -> i64
    requires origin { IsWithinLimit origin }
    requires by { IsWithin (2 ^ 120) by }
    ensures value { result ≡ clipped_of (origin +ℤ by) }
    ensures within { IsWithinLimit result }
{
    clip(origin as i128 + by)
}

/// `n / d` rounded to the nearest whole number, halves away from 0.
pub fn near(n: i128, d: i128) -> i128
    requires bounded { unsigned_abs n ≤ 2 ^ 120 }
    requires positive { pos 1 ≤ℤ d }
    requires small { d ≤ℤ pos (2 ^ 60) }
    ensures value { result ≡ nearest_of n d }
    ensures nearest { IsNearest n d result }
    ensures only { (q : ℤ) → IsNearest n d q → q ≡ result }
    ensures within { unsigned_abs result ≤ unsigned_abs n }
{
    with_sign_of(n, rounded(n.unsigned_abs(), d.unsigned_abs()))
}

// Where both numbers are short the division is one of 64 bits, which is several times faster.
fn rounded(n: u128, d: u128) -> u128
    requires bounded { n ≤ 2 ^ 120 }
    requires positive { 0 < d }
    requires small { d ≤ 2 ^ 60 }
    ensures value { result ≡ rounded_of n d }
    ensures within { result ≤ n }
{
    if n < 1 << 62 {
        let short = (2 * n as u64 + d as u64) / (2 * d as u64);
        short as u128
    } else {
        (2 * n + d) / (2 * d)
    }
}

// The number of this magnitude that is below 0 where `n` is.
fn with_sign_of(n: i128, magnitude: u128) -> i128
    requires { magnitude ≤ 2 ^ 120 }
    ensures { result ≡ signed_of n magnitude }
{
    if n < 0 {
        -(magnitude as i128)
    } else {
        magnitude as i128
    }
}

/// Exactly one whole number is nearest to a quotient.
pub fn one_nearest(n: i128, d: i128)
    requires { pos 1 ≤ℤ d }
    ensures there { (q : ℤ) × IsNearest n d q }
    ensures one { (p q : ℤ) → IsNearest n d p → IsNearest n d q → p ≡ q }
{}
