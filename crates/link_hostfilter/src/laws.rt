//! What holds of the definitions: each law is the contract of a function with an empty body.

ghost use Rattle.std.specs.Prelude.{◌≡◌, ◌<◌, ◌^◌, ℤ, pos, ◌<ℤ◌, List, length, None};
ghost use Rattle.link_hostfilter.specs.declared.line.Line.{Line};
ghost use Rattle.link_hostfilter.specs.declared.pair.Pair.{Pair};
ghost use Rattle.lk_base.specs.Ranges.{IsWithin, IsWithinLimit};
ghost use Rattle.link_hostfilter.specs.Kept.{AreKept, fault_of, last, with_new};
ghost use Rattle.link_hostfilter.specs.Fit.{Fits, IsNoFarther, IsFiltered};

/// No line is nearer to pairs than one that fits them.
pub fn no_line_is_nearer()
    ensures { (pairs : List Pair) (line other : Line) → Fits pairs line → pos 0 <ℤ other.unit → IsNoFarther pairs line other }
{}

/// The filtered host time doesn't depend on which line is taken.
pub fn one_value()
    ensures { (pairs : List Pair) (a b : ℤ) → IsFiltered pairs a → IsFiltered pairs b → a ≡ b }
{}

/// A pair that isn't refused leaves pairs that are as near to one another as before.
pub fn a_new_pair_is_near()
    ensures { (new : Pair) (pairs : List Pair) → AreKept pairs → IsWithinLimit new.sample → IsWithinLimit new.host
        → fault_of new pairs ≡ None → AreKept (with_new new pairs) }
{}

/// The last of the last, as one more comes, are those of all.
pub fn the_last_of_the_last()
    ensures { (new : Pair) (pairs : List Pair) → with_new new (last 512 pairs) ≡ with_new new pairs }
{}

/// Pairs that a filter may keep have a filtered host time, and it is within 2^61.
pub fn kept_pairs_are_filtered()
    ensures { (pairs : List Pair) → AreKept pairs → 0 < length pairs → (host : ℤ) × IsFiltered pairs host × IsWithin (2 ^ 61) host }
{}
