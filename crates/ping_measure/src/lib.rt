//! One measurement of how far a session's clock is from the host's, by pings to one of its peers and the pongs that
//! come back; and the answer to a ping.
//!
//! In reading order: `outcome`, `points`, `measure`, `answer`, `laws`.
#![tactic(auto)]

mod answer;
mod laws;
mod measure;
mod outcome;
mod points;

pub use answer::answer_ping;
pub use laws::honest_pongs_bound_the_error;
pub use measure::Measure;
pub use outcome::{MeasureFault, Outcome};
