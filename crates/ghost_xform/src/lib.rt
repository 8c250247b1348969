//! Offsets between a host's clock and a session's, and the median by which one is measured.
//!
//! In reading order: `xform`, `median`, `laws`.
#![tactic(auto)]

mod laws;
mod median;
mod xform;

pub use laws::{near_points_tell_a_near_offset, one_value_a_rank, order_does_not_matter};
pub use median::{middle_pair, offset_of};
pub use xform::XForm;
