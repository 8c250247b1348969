//! The link between the threads of a session: the applications' commits go in by a queue, in one order and each once,
//! and the states that the session publishes come out by cells.
//!
//! In reading order: `name`, `ids`, `capture`, `queue`, `desk`, `link` and of it `app` and `audio`; `parts`, `opened`; `got`,
//! `keeper` and of it `commits` and `settle`, `hub` and of it `turn`, `handed`, `drain`, `hearing` and `last_turn`.
#![tactic(auto)]

mod capture;
mod desk;
mod got;
mod hub;
mod ids;
mod keeper;
mod link;
mod name;
mod opened;
mod parts;
mod queue;

pub use capture::{Busy, Capture, QueueFull};
pub use got::{Ended, Got, Turned};
pub use hub::Hub;
pub use link::{AppPass, AudioPass, Link};
pub use name::LinkName;
pub use opened::Opened;
pub use parts::Parts;
