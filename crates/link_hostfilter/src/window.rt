//! The pairs that a filter keeps, in the order in which they came.

ghost use Rattle.std.specs.Prelude.{◌≡◌, ◌<◌, ◌≤◌, [], ◌∷◌, ◌++◌, length, drop};

use crate::pair::Pair;
use arrayvec::ArrayVec;
use std::marker::Model;

/// At most 512 pairs, the oldest first.
#[derive(Drop)]
pub(crate) struct Window {
    // Those before the oldest have gone. They make room when there is none left, so that most pairs stay where they are.
    pairs: ArrayVec<Pair, 1024>,
    oldest: usize,
}

impl Model for Window {
    ghost use Rattle.std.specs.Prelude.{◌≤◌, List, length, drop};
    ghost use Rattle.link_hostfilter.specs.declared.pair.Pair.{Pair};

    ghost Value = { List Pair };

    ghost view = { λ w. drop w.oldest w.pairs.items };

    ghost invariant = { λ w. (w.oldest ≤ length w.pairs.items) × (length w.pairs.items ≤ 1024) };
}

impl Window {
    /// No pairs.
    pub(crate) fn new() -> Window
        ensures { result ≡ [] }
    {
        Window {
            pairs: ArrayVec::new(),
            oldest: 0,
        }
    }

    /// Lets all pairs go.
    pub(crate) fn clear(&mut self)
        ensures { self.new ≡ [] }
    {
        self.pairs.clear();
        self.oldest = 0;
    }

    /// The pairs, the oldest first.
    pub(crate) fn as_slice(&self) -> &[Pair]
        ensures { result.now ≡ self.now }
    {
        &self.pairs.as_slice()[self.oldest..]
    }

    /// Lets the oldest pair go.
    pub(crate) fn drop_oldest(&mut self)
        requires { 0 < length self.old }
        ensures { self.new ≡ drop 1 self.old }
    {
        self.oldest += 1;
    }

    /// Appends a pair.
    pub(crate) fn push(&mut self, pair: Pair)
        requires { length self.old ≤ 511 }
        ensures { self.new ≡ self.old ++ pair ∷ [] }
    {
        if self.pairs.is_full() {
            close_up(&mut self.pairs, self.oldest);
            self.oldest = 0;
        }
        self.pairs.push(pair);
    }
}

// Lets the first so many go, and moves the others into their place.
fn close_up(pairs: &mut ArrayVec<Pair, 1024>, gone: usize)
    requires { gone ≤ length pairs.old.items }
    ensures { pairs.new.items ≡ drop gone pairs.old.items }
{
    let stay = pairs.len() - gone;
    pairs.as_mut_slice().rotate_left(gone);
    pairs.truncate(stay);
}
