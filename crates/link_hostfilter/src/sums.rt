//! The sums that a filter keeps.

ghost use Rattle.std.specs.Prelude.{◌≡◌, ℤ, pos, ◌+ℤ◌, ◌-ℤ◌, ◌*ℤ◌, ◌≤ℤ◌, ◌^◌};
ghost use Rattle.lk_base.specs.Ranges.{IsWithin};

use crate::line::Line;
use crate::pair::Pair;

/// Sums over pairs as seen from the oldest.
#[derive(Clone, Copy)]
pub(crate) struct Sums {
    pub samples: i128,
    pub hosts: i128,
    pub squares: i128,
    pub products: i128,
}

impl Sums {
    ghost use Rattle.link_hostfilter.specs.Sums.{AreBounded};

    /// Those of no pairs.
    pub(crate) fn none() -> Sums
        ensures { result ≡ record { samples = pos 0; hosts = pos 0; squares = pos 0; products = pos 0 } }
    {
        Sums {
            samples: 0,
            hosts: 0,
            squares: 0,
            products: 0,
        }
    }

    /// With one more, as seen from the oldest.
    pub(crate) fn with(&self, pair: &Pair) -> Sums
        requires bounded { AreBounded self.now }
        requires sample { IsWithin (2 ^ 31) pair.now.sample }
        requires host { IsWithin (2 ^ 31) pair.now.host }
        ensures samples { result.samples ≡ self.now.samples +ℤ pair.now.sample }
        ensures hosts { result.hosts ≡ self.now.hosts +ℤ pair.now.host }
        ensures squares { result.squares ≡ self.now.squares +ℤ pair.now.sample *ℤ pair.now.sample }
        ensures products { result.products ≡ self.now.products +ℤ pair.now.sample *ℤ pair.now.host }
    {
        Sums {
            samples: plus(self.samples, pair.sample as i128),
            hosts: plus(self.hosts, pair.host as i128),
            squares: plus(self.squares, product(pair.sample, pair.sample)),
            products: plus(self.products, product(pair.sample, pair.host)),
        }
    }

    /// The same pairs as seen from another one.
    pub(crate) fn from(&self, count: i64, base: &Pair) -> Sums
        requires bounded { AreBounded self.now }
        requires count { (pos 0 ≤ℤ count) × (count ≤ℤ pos 512) }
        requires sample { IsWithin (2 ^ 31) base.now.sample }
        requires host { IsWithin (2 ^ 31) base.now.host }
        ensures samples { result.samples ≡ self.now.samples -ℤ count *ℤ base.now.sample }
        ensures hosts { result.hosts ≡ self.now.hosts -ℤ count *ℤ base.now.host }
        ensures squares { result.squares ≡ self.now.squares -ℤ self.now.samples *ℤ base.now.sample
            -ℤ result.samples *ℤ base.now.sample }
        ensures products { result.products ≡ self.now.products -ℤ self.now.hosts *ℤ base.now.sample
            -ℤ result.samples *ℤ base.now.host }
    {
        let samples = shifted(self.samples, count, base.sample);
        let hosts = shifted(self.hosts, count, base.host);
        let squares = scaled(self.samples, base.sample);
        let products = scaled(self.hosts, base.sample);
        Sums {
            samples,
            hosts,
            squares: without(self.squares, squares, scaled(samples, base.sample)),
            products: without(self.products, products, scaled(samples, base.host)),
        }
    }

    /// The line that fits so many pairs with these sums.
    pub(crate) fn line(&self, count: i64) -> Line
        requires bounded { AreBounded self.now }
        requires count { (pos 0 ≤ℤ count) × (count ≤ℤ pos 512) }
        ensures at_zero { result.at_zero ≡ self.now.hosts *ℤ self.now.squares -ℤ self.now.samples *ℤ self.now.products }
        ensures rise { result.rise ≡ count *ℤ self.now.products -ℤ self.now.samples *ℤ self.now.hosts }
        ensures unit { result.unit ≡ count *ℤ self.now.squares -ℤ self.now.samples *ℤ self.now.samples }
        ensures low { IsWithin (2 ^ 114) result.at_zero }
        ensures slow { IsWithin (2 ^ 83) result.rise }
        ensures small { IsWithin (2 ^ 83) result.unit }
    {
        Line {
            at_zero: minus_wide(
                wide(self.hosts, self.squares),
                wide(self.samples, self.products),
            ),
            rise: minus(
                counted(count, self.products),
                twice(self.samples, self.hosts),
            ),
            unit: minus(
                counted(count, self.squares),
                twice(self.samples, self.samples),
            ),
        }
    }
}

// Products, each within the bounds of its factors.

fn product(a: i64, b: i64) -> i128
    requires a { IsWithin (2 ^ 31) a }
    requires b { IsWithin (2 ^ 31) b }
    ensures value { result ≡ a *ℤ b }
    ensures within { IsWithin (2 ^ 62) result }
{
    a as i128 * b as i128
}

fn shift(count: i64, by: i64) -> i128
    requires count { (pos 0 ≤ℤ count) × (count ≤ℤ pos 512) }
    requires by { IsWithin (2 ^ 31) by }
    ensures value { result ≡ count *ℤ by }
    ensures within { IsWithin (2 ^ 40) result }
{
    count as i128 * by as i128
}

fn scaled(sum: i128, by: i64) -> i128
    requires sum { IsWithin (2 ^ 42) sum }
    requires by { IsWithin (2 ^ 31) by }
    ensures value { result ≡ sum *ℤ by }
    ensures within { IsWithin (2 ^ 73) result }
{
    sum * by as i128
}

fn counted(count: i64, sum: i128) -> i128
    requires count { (pos 0 ≤ℤ count) × (count ≤ℤ pos 512) }
    requires sum { IsWithin (2 ^ 72) sum }
    ensures value { result ≡ count *ℤ sum }
    ensures within { IsWithin (2 ^ 81) result }
{
    count as i128 * sum
}

fn twice(a: i128, b: i128) -> i128
    requires a { IsWithin (2 ^ 41) a }
    requires b { IsWithin (2 ^ 41) b }
    ensures value { result ≡ a *ℤ b }
    ensures within { IsWithin (2 ^ 82) result }
{
    a * b
}

fn wide(a: i128, b: i128) -> i128
    requires a { IsWithin (2 ^ 41) a }
    requires b { IsWithin (2 ^ 72) b }
    ensures value { result ≡ a *ℤ b }
    ensures within { IsWithin (2 ^ 113) result }
{
    a * b
}

// Sums and differences.

fn plus(sum: i128, more: i128) -> i128
    requires sum { IsWithin (2 ^ 72) sum }
    requires more { IsWithin (2 ^ 62) more }
    ensures { result ≡ sum +ℤ more }
{
    sum + more
}

fn shifted(sum: i128, count: i64, by: i64) -> i128
    requires sum { IsWithin (2 ^ 41) sum }
    requires count { (pos 0 ≤ℤ count) × (count ≤ℤ pos 512) }
    requires by { IsWithin (2 ^ 31) by }
    ensures value { result ≡ sum -ℤ count *ℤ by }
    ensures within { IsWithin (2 ^ 42) result }
{
    less(sum, shift(count, by))
}

fn less(sum: i128, by: i128) -> i128
    requires sum { IsWithin (2 ^ 41) sum }
    requires by { IsWithin (2 ^ 40) by }
    ensures value { result ≡ sum -ℤ by }
    ensures within { IsWithin (2 ^ 42) result }
{
    sum - by
}

fn without(sum: i128, first: i128, second: i128) -> i128
    requires sum { IsWithin (2 ^ 72) sum }
    requires first { IsWithin (2 ^ 73) first }
    requires second { IsWithin (2 ^ 73) second }
    ensures { result ≡ sum -ℤ first -ℤ second }
{
    sum - first - second
}

fn minus(a: i128, b: i128) -> i128
    requires a { IsWithin (2 ^ 81) a }
    requires b { IsWithin (2 ^ 82) b }
    ensures value { result ≡ a -ℤ b }
    ensures within { IsWithin (2 ^ 83) result }
{
    a - b
}

fn minus_wide(a: i128, b: i128) -> i128
    requires a { IsWithin (2 ^ 113) a }
    requires b { IsWithin (2 ^ 113) b }
    ensures value { result ≡ a -ℤ b }
    ensures within { IsWithin (2 ^ 114) result }
{
    a - b
}
