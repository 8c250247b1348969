//! Which of the kept pairs refuse a new one.

ghost use Rattle.std.specs.Prelude.{◌≡◌, ◌<◌, ◌≤ℤ◌, ◌-ℤ◌, ◌^◌, pos, length, true, None};
ghost use Rattle.lk_base.specs.Ranges.{IsWithinLimit};
ghost use Rattle.link_hostfilter.specs.Fit.{newest_of, oldest_of};
ghost use Rattle.link_hostfilter.specs.Kept.{AreNear, AreWithin, first_far, is_late, last};
ghost use Rattle.link_hostfilter.specs.Span.{AreAmong};

use crate::pair::{Pair, REACH};
use crate::span::Span;

/// The newest of some pairs.
pub(crate) fn newest(pairs: &[Pair]) -> Pair
    requires { 0 < length pairs.now }
    ensures { result ≡ newest_of pairs.now }
{
    pairs[pairs.len() - 1]
}

/// Whether a new pair isn't later than the newest of these.
pub(crate) fn is_late(pairs: &[Pair], new: &Pair) -> bool
    ensures { result ≡ is_late new.now pairs.now }
{
    if pairs.is_empty() {
        false
    } else {
        new.sample <= newest(pairs).sample
    }
}

/// The pairs that would stay beside a new one: the last 511.
pub(crate) fn staying(pairs: &[Pair]) -> &[Pair]
    ensures { result.now ≡ last 511 pairs.now }
{
    &pairs[pairs.len().saturating_sub(511)..]
}

/// The oldest of these, whose host times lie in a span, that is too far from a new one.
pub(crate) fn first_far(pairs: &[Pair], hosts: &Span, new: &Pair) -> Option<Pair>
    requires near { AreNear pairs.now }
    requires limits { AreWithin pairs.now }
    requires among { AreAmong hosts.now pairs.now }
    requires sample { IsWithinLimit new.now.sample }
    requires host { IsWithinLimit new.now.host }
    ensures { result ≡ first_far new.now pairs.now }
{
    // Mostly the ends tell that none is.
    if hosts.is_near(new.host) && is_near_oldest(pairs, new) {
        return None;
    }
    search(pairs, new)
}

// Whether the sample is at most 2^31 above the oldest one, if there is one.
fn is_near_oldest(pairs: &[Pair], new: &Pair) -> bool
    requires limits { AreWithin pairs.now }
    requires sample { IsWithinLimit new.now.sample }
    ensures { 0 < length pairs.now → result ≡ true → (new.now.sample -ℤ (oldest_of pairs.now).sample) ≤ℤ pos (2 ^ 31) }
{
    if pairs.is_empty() {
        true
    } else {
        new.sample - pairs[0].sample <= REACH
    }
}

// Looks at one after the other.
fn search(pairs: &[Pair], new: &Pair) -> Option<Pair>
    requires limits { AreWithin pairs.now }
    requires sample { IsWithinLimit new.now.sample }
    requires host { IsWithinLimit new.now.host }
    ensures { result ≡ first_far new.now pairs.now }
{
    for pair in pairs {
        if pair.is_far_from(new) {
            return Some(*pair);
        }
    }
    None
}
