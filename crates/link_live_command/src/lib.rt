//! The command `live`, and what it shares with `control`: how a script is read, and what is told of a run on the network.
//!
//! In reading order: `input` (how a script is read), `live` (the command, over the run of `link_live`); `summary`, `report_text`, `sayable`
//! (what is told of a run).
#![tactic(auto)]

mod input;
mod live;
mod report_text;
mod sayable;
mod summary;

pub use input::{read_head, read_script};
pub use live::live_main;
pub use summary::write_report;
