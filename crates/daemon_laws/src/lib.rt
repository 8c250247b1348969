//! Laws of how a call of the program ends, each the contract of a function that does nothing. No program is linked with them.
#![tactic(auto)]

mod laws;

pub use laws::{one_fault_line, one_status, valid_is_done};
