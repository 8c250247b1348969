//! Talks with many clients: a trait of the outside, and an object in memory that tells all of it.
//!
//! In reading order: `talks`; `failing`, `step`, `list_talks`.
#![tactic(auto)]

mod failing;
mod list_talks;
mod step;
mod talks;

pub use failing::{ADMIT, HEAR, LISTEN, SAY, SHUT, TURN_AWAY, WAIT};
pub use list_talks::ListTalks;
pub use step::{Happened, PIECE, Piece, Step};
pub use talks::{Admitted, Heard, SEATS, Said, Talks, Waited};
