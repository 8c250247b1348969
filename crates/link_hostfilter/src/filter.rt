//! The filter: which pairs it keeps, and what it answers.

ghost use Rattle.std.specs.Prelude.{◌≡◌, ◌<◌, ◌≤◌, ◌^◌, pos, ◌<ℤ◌, [], ◌∷◌, ◌++◌, length, IfOk, OnErr, OnOk, MatchResult, Some, None};
ghost use Rattle.lk_base.specs.Ranges.{IsWithin, IsWithinLimit};

use crate::far::{first_far, is_late, newest, staying};
use crate::fault::FilterFault;
use crate::pair::Pair;
use crate::span::Span;
use crate::sums::Sums;
use crate::window::Window;
use std::marker::Model;

/// How many pairs are kept.
const PAIRS: usize = 512;

/// The last 512 pairs of a sample count and a host time. It takes no memory.
#[derive(Drop)]
pub struct HostFilter {
    pairs: Window,
    // Those of the pairs as seen from the oldest.
    sums: Sums,
    // That of their host times.
    hosts: Span,
}

impl Model for HostFilter {
    ghost use Rattle.std.specs.Prelude.{List};
    ghost use Rattle.link_hostfilter.specs.declared.pair.Pair.{Pair};
    ghost use Rattle.link_hostfilter.specs.Fit.{from_oldest};
    ghost use Rattle.link_hostfilter.specs.Kept.{AreKept};
    ghost use Rattle.link_hostfilter.specs.Span.{AreAmong};
    ghost use Rattle.link_hostfilter.specs.Sums.{AreSums};

    ghost Value = { List Pair };

    ghost view = { λ f. f.pairs };

    ghost invariant = { λ f. AreKept f.pairs × AreSums (from_oldest f.pairs) f.sums × AreAmong f.hosts f.pairs };
}

impl HostFilter {
    ghost use Rattle.link_hostfilter.specs.declared.line.Line.{Line};
    ghost use Rattle.link_hostfilter.specs.declared.pair.Pair.{Pair};
    ghost use Rattle.link_hostfilter.specs.Fit.{Fits, from_oldest, IsFiltered, IsNoFarther};
    ghost use Rattle.link_hostfilter.specs.Kept.{AreKept, AreNear, fault_of, last, with_new};

    /// A filter without pairs.
    pub fn new() -> HostFilter
        ensures { result ≡ [] }
    {
        HostFilter {
            pairs: Window::new(),
            sums: Sums::none(),
            hosts: Span::none(),
        }
    }

    /// Lets all pairs go.
    pub fn reset(&mut self)
        ensures { self.new ≡ [] }
    {
        self.pairs.clear();
        self.sums = Sums::none();
        self.hosts = Span::none();
    }

    /// How many pairs are kept.
    pub fn len(&self) -> usize
        ensures count { result ≡ length self.now }
        ensures few { result ≤ 512 }
    {
        self.pairs.as_slice().len()
    }

    /// Takes a sample count and the host time in microseconds at which it was read, and answers the host time of that sample on the
    /// least squares line through the last 512 pairs, this one among them. That is the oldest pair's host time plus the rest, which is
    /// rounded: so a half is rounded away from the oldest host time, and not away from 0.
    ///
    /// `NotLater` where a sample as late was taken, with that sample. Else `TooFar` where the pair is more than 2^31 from one that
    /// would stay, in either number, with the oldest such pair. A pair that is refused changes nothing.
    ///
    /// Waits: never. Memory: none.
    pub fn add(&mut self, sample: i64, host: i64) -> Result<i64, FilterFault>
        requires sample { IsWithinLimit sample }
        requires host { IsWithinLimit host }
        ensures answer { let pair : Pair = record { sample = sample; host = host } in
            MatchResult result (λ _. fault_of pair self.old ≡ None) (λ fault. fault_of pair self.old ≡ Some fault) }
        ensures kept { let pair : Pair = record { sample = sample; host = host } in
            OnOk result (self.new ≡ with_new pair self.old) }
        ensures filtered { IfOk result (IsFiltered self.new) }
        ensures nearest { OnOk result ((line other : Line) → Fits (from_oldest self.new) line → pos 0 <ℤ other.unit
            → IsNoFarther (from_oldest self.new) line other) }
        ensures near { OnOk result (AreNear self.new) }
        ensures within { IfOk result (IsWithin (2 ^ 61)) }
        ensures refused { OnErr result (self.new ≡ self.old) }
    {
        let pair = Pair { sample, host };
        if let Some(fault) = self.fault(&pair) {
            return Err(fault);
        }
        self.make_room();
        self.keep(&pair);
        Ok(self.newest_on_line())
    }

    fn fault(&self, pair: &Pair) -> Option<FilterFault>
        requires sample { IsWithinLimit pair.now.sample }
        requires host { IsWithinLimit pair.now.host }
        ensures fault { result ≡ fault_of pair.now self.now }
        ensures kept { AreKept self.now }
    {
        let pairs = self.pairs.as_slice();
        if is_late(pairs, pair) {
            return Some(FilterFault::NotLater {
                last: newest(pairs).sample,
            });
        }
        match first_far(staying(pairs), &self.hosts, pair) {
            None => None,
            Some(far) => Some(FilterFault::TooFar {
                sample: far.sample,
                host: far.host,
            }),
        }
    }

    fn make_room(&mut self)
        ensures { self.new ≡ last 511 self.old }
    {
        if self.len() == PAIRS {
            self.drop_oldest();
        }
    }

    fn drop_oldest(&mut self)
        requires { length self.old ≡ 512 }
        ensures { self.new ≡ last 511 self.old }
    {
        let pairs = self.pairs.as_slice();
        let base = pairs[1].seen_from(&pairs[0]);
        self.sums = self.sums.from(511, &base);
        self.pairs.drop_oldest();
    }

    fn keep(&mut self, pair: &Pair)
        requires room { length self.old ≤ 511 }
        requires kept { AreKept (self.old ++ pair.now ∷ []) }
        ensures { self.new ≡ self.old ++ pair.now ∷ [] }
    {
        self.pairs.push(*pair);
        let pairs = self.pairs.as_slice();
        let last = pair.seen_from(&pairs[0]);
        self.hosts = self.hosts.with(pair.host).tightened(pairs);
        self.sums = self.sums.with(&last);
    }

    fn newest_on_line(&self) -> i64
        requires { 0 < length self.now }
        ensures filtered { IsFiltered self.now result }
        ensures within { IsWithin (2 ^ 61) result }
    {
        let pairs = self.pairs.as_slice();
        let oldest = pairs[0];
        if pairs.len() == 1 {
            return oldest.host;
        }
        let last = newest(pairs).seen_from(&oldest);
        oldest.host + self.sums.line(pairs.len() as i64).at(last.sample)
    }
}
