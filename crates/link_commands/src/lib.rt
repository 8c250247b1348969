//! How a call of the program may end, and its commands that need neither network nor clock.
//!
//! In reading order: `status`, `reason`, `text_fault`; `text_command` (a command that reads a whole text and writes another), `run_text`,
//! `outlet`; `opened_script`; `replay`, `replay_lines`, `counts`; `decode`, `hex_lines`; `filter`, `pair_lines`; `midi`, `midi_lines`;
//! `load`; last `laws`.
#![tactic(auto)]

mod counts;
mod decode;
mod filter;
mod hex_lines;
mod laws;
mod load;
mod midi;
mod midi_lines;
mod opened_script;
mod outlet;
mod pair_lines;
mod reason;
mod replay;
mod replay_lines;
mod run_text;
mod status;
mod text_command;
mod text_fault;

pub use decode::decode_main;
pub use filter::filter_main;
pub use laws::{one_filter_text, one_output};
pub use load::load_main;
pub use midi::midi_main;
pub use outlet::{Outlet, SinkFailed};
pub use reason::Reason;
pub use replay::replay_main;
pub use replay_lines::hand_state;
pub use run_text::read_and_answer;
pub use status::{Grammar, Status};
pub use text_command::TextCommand;
pub use text_fault::TextFault;
