//! Control: a program beside the runtime drives a node, line by line.
//!
//! In reading order: `line` (the line that is read), `log` (what is done at each line), `answer` (the text of an answer, and how it is
//! written), `server` (serving a client), `sides` (the client's side of a run), `room`, `run` (that side beside the loop of the network,
//! and the end).
#![tactic(auto)]

mod answer;
mod line;
mod log;
mod room;
mod run;
mod server;
mod sides;

pub use log::{LineLog, MOST_LINES, SessionLog};
pub use room::ControlRoom;
pub use run::{ControlEnd, ControlRun, control_ends_tell, control_run};
pub use server::{Served, serve};
