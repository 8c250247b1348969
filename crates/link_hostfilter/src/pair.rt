//! A sample count and the host time at which it was read.

ghost use Rattle.std.specs.Prelude.{◌≡◌, ◌-ℤ◌};
ghost use Rattle.lk_base.specs.Ranges.{IsWithinLimit};

#[derive(Clone, Copy, Debug, Default, PartialEq, Eq)]
pub(crate) struct Pair {
    pub sample: i64,
    pub host: i64,
}

/// How far two pairs may be apart: 2^31.
pub(crate) const REACH: i64 = 2_147_483_648;

impl Pair {
    ghost use Rattle.link_hostfilter.specs.Kept.{is_far};

    /// How far this pair is from a base, in both numbers.
    pub(crate) fn seen_from(&self, base: &Pair) -> Pair
        requires sample { IsWithinLimit self.now.sample }
        requires host { IsWithinLimit self.now.host }
        requires base_sample { IsWithinLimit base.now.sample }
        requires base_host { IsWithinLimit base.now.host }
        ensures sample { result.sample ≡ self.now.sample -ℤ base.now.sample }
        ensures host { result.host ≡ self.now.host -ℤ base.now.host }
    {
        Pair {
            sample: self.sample - base.sample,
            host: self.host - base.host,
        }
    }

    /// Whether a new pair is too far from this one.
    #[tactic(auto, unfolding(crate::specs::Kept::is_far))]
    pub(crate) fn is_far_from(&self, new: &Pair) -> bool
        requires sample { IsWithinLimit self.now.sample }
        requires host { IsWithinLimit self.now.host }
        requires new_sample { IsWithinLimit new.now.sample }
        requires new_host { IsWithinLimit new.now.host }
        ensures { result ≡ is_far new.now self.now }
    {
        new.sample - self.sample > REACH || new.host.abs_diff(self.host) > REACH as u64
    }
}
