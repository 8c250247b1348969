//! What the clients of a session server ask for, and the texts of its answers.
//!
//! In reading order: `ask` (what a line may ask for), `command` (the first words of lines), `asking` (reading a line), `left` (what follows
//! a command), `tempo_text` (beats per minute), `reason` (what is wrong with another line); `view` (what is shown of a state), `known`,
//! `answer` (the text of an answer), `laws`.
#![tactic(auto)]

mod answer;
mod ask;
mod asking;
mod command;
mod known;
mod laws;
mod left;
mod reason;
mod tempo_text;
mod view;

pub use answer::{put_answer, put_changed};
pub use ask::Ask;
pub use asking::ask_of;
pub use command::Command;
pub use known::{GateState, GateTold, Known};
pub use laws::ask_laws;
pub use reason::{Reason, reason_of};
pub use tempo_text::{millionths_of, tempo_of};
pub use view::{View, view_of};
