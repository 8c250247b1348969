//! The peers that a node has seen on its gates, each with its session and where it answers pings, and when it ends.
//!
//! In reading order: `row`, `peers`, and of it `answers`; `expiry`, `laws`.
#![tactic(auto)]

mod expiry;
mod laws;
mod peers;
mod row;

pub use expiry::Expiry;
pub use laws::{
    no_number_is_less_than_the_least, no_row_comes_before_the_first, no_row_twice,
    rows_are_what_nothing_ended,
};
pub use peers::Peers;
pub use row::Seen;
