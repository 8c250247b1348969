//! The sessions that a node knows, the timeline that counts in each, and which session it is in.
//!
//! In reading order: `verdict`, `current`, `winning`, `known`, `others`, `sessions`, `laws`.
#![tactic(auto)]

mod current;
mod known;
mod laws;
mod others;
mod sessions;
mod verdict;
mod winning;

pub use current::Current;
pub use laws::{not_both_win, one_best};
pub use sessions::Sessions;
pub use verdict::{Saw, Verdict};
