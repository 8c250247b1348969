//! Laws of ranks and offsets, for the callers' proofs: to call one is to know it.

ghost use Rattle.std.specs.Prelude.{◌≡◌, ℕ, ℤ, pos, ◌*◌, ◌^◌, ◌<◌, ◌+ℤ◌, ◌-ℤ◌, ◌≤ℤ◌, List, All, Contains, length, IsPermutation, unsigned_abs};
ghost use Rattle.lk_base.specs.Ranges.{IsWithin};
ghost use Rattle.ghost_xform.specs.Rank.{HasRank, IsAbout, ranked_in};
ghost use Rattle.ghost_xform.specs.Rank as spec;

/// In every list each rank below its length has exactly one value, which is an element.
pub fn one_value_a_rank()
    ensures there { (xs : List ℤ) (rank : ℕ) → rank < length xs → HasRank xs rank (ranked_in xs rank) }
    ensures element { (xs : List ℤ) (rank : ℕ) (x : ℤ) → HasRank xs rank x → Contains xs x }
    ensures one { (xs : List ℤ) (rank : ℕ) (x y : ℤ) → HasRank xs rank x → HasRank xs rank y → x ≡ y }
{}

/// The offset that points tell doesn't depend on their order.
pub fn order_does_not_matter()
    ensures { (xs ys : List ℤ) → IsPermutation xs ys → spec.offset_of xs ≡ spec.offset_of ys }
{}

/// Points that are each at most `r` from twice a number `c` tell an offset at most half of `r + 1` from `c`.
pub fn near_points_tell_a_near_offset()
    ensures { (points : List ℤ) (c r : ℤ) → 0 < length points → IsWithin (2 ^ 60) c → All (IsAbout c r) points
        → pos (2 * unsigned_abs (spec.offset_of points -ℤ c)) ≤ℤ (r +ℤ pos 1) }
{}
