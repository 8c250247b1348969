//! What honest pongs say of the error.

ghost use Rattle.std.specs.Prelude.{ℤ, pos, ◌*◌, ◌^◌, ◌<◌, ◌≤◌, ◌+ℤ◌, ◌-ℤ◌, ◌≤ℤ◌, length, count_by, unsigned_abs};
ghost use Rattle.lk_base.specs.Ranges.{IsWithin};
ghost use Rattle.ghost_xform.specs.Rank.{offset_of};
ghost use Rattle.ping_measure.specs.Points.{points_of, is_counted};
ghost use Rattle.ping_measure.specs.Life.{Life};
ghost use Rattle.ping_measure.specs.Accuracy.{AreFair};

use ghost_xform::near_points_tell_a_near_offset;

/// A finished measurement has counted at least 51 pongs. Where each of them was honest and none took longer than `r`
/// microseconds from its ping, the offset is within half of `r + 1` microseconds of the true one.
pub fn honest_pongs_bound_the_error()
    ensures counted { (life : Life) → 100 < length (points_of life.happened)
        → 51 ≤ count_by is_counted life.happened }
    ensures bound { (life : Life) (c r : ℤ) → 100 < length (points_of life.happened)
        → IsWithin (2 ^ 60) c → AreFair c r life
        → pos (2 * unsigned_abs (offset_of (points_of life.happened) -ℤ c)) ≤ℤ (r +ℤ pos 1) }
{
    near_points_tell_a_near_offset();
}
