//! A session server: many clients, which come and go, drive a node line by line.
//!
//! In reading order: `terms`, `lookout`, `seat` (what is kept of a client), `edit` (what a line commits), `hall` (what is kept of all),
//! `look`, `piece` (hearing a client, and answering its lines), `telling`, `coming` (who comes, and who is let go), `host` (the rounds),
//! `sides`, `run` (the clients' side beside the loop of the network, and the end), `laws`.
#![tactic(auto)]

mod coming;
mod edit;
mod hall;
mod host;
mod laws;
mod look;
mod lookout;
mod piece;
mod run;
mod seat;
mod sides;
mod telling;
mod terms;

pub use edit::commit_of;
pub use laws::clients_are_answered_in_order;
pub use lookout::{Lookout, Rig, Sighted};
pub use run::{ServeRun, serve_run};
pub use terms::{HostEnd, ServeEnd, Terms};
