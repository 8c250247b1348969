//! The ranges of the numbers that peers share.

ghost use Rattle.std.specs.Prelude.{◌↔◌, IsTrue};
ghost use Rattle.lk_base.specs.Ranges.{IsWithinLimit};

/// The greatest magnitude of a beat in microbeats, of a time or of a stamp in microseconds: 2^60.
pub const LIMIT: i64 = 1_152_921_504_606_846_976;

/// The greatest moment, in microseconds of host time: 2^55, more than a thousand years.
pub const MOMENT_MAX: i64 = 36_028_797_018_963_968;

/// Whether a beat, a time or a stamp may be shared: whether it is at most 2^60 away from 0.
pub fn is_within_limit(n: i64) -> bool
    ensures { IsTrue result ↔ IsWithinLimit n }
{
    -LIMIT <= n && n <= LIMIT
}
