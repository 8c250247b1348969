//! A smooth host time for a sample count: the value at the newest sample of the least squares line through the last 512 pairs of a
//! sample count and a host time, in whole numbers.
//!
//! The method is that of Link's filter of host times; the refusals and the rounding are this project's own.
//!
//! In reading order: `fault`, `pair`, `window` (the pairs that are kept), `span` and `sums` (what is kept beside them), `wide` (rounding
//! of wide numbers), `line`, `far` (which pairs are refused), `filter`; last `laws`.
#![tactic(auto)]

mod far;
mod fault;
mod filter;
mod laws;
mod line;
mod pair;
mod span;
mod sums;
mod wide;
mod window;

pub use fault::FilterFault;
pub use filter::HostFilter;
pub use laws::{
    a_new_pair_is_near, kept_pairs_are_filtered, no_line_is_nearer, one_value, the_last_of_the_last,
};
pub use wide::near_wide;
