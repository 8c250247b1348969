//! The texts that the program reads and writes.
//!
//! Lines and their words are cut, read and put together by `link_lines`, and what a live script says stands in `link_script`; what callers
//! need of both beside this crate is handed on. In reading order: `node_id`, `values` (what the next word says), `hex_word` (the last word
//! of an arrival), `pair` (a line of two numbers), `place` (the lines that count), `said_event`, `commit_read`, `event_read`, `head_read`
//! (a line of each kind), `fault`, `head`, `replay_script`, `live_read` (the lines of a live script), `live_script`, `live_head`,
//! `control_line` (the lines of a client), `reason`, `head_line`, `event_line`, `sending_line`, `state_line`, `reading_line`, `load` (the
//! events of a generated run); last `laws`.
#![tactic(auto)]

mod commit_read;
mod control_line;
mod event_line;
mod event_read;
mod fault;
mod head;
mod head_line;
mod head_read;
mod hex_word;
mod laws;
mod live_head;
mod live_read;
mod live_script;
mod load;
mod node_id;
mod pair;
mod place;
mod reading_line;
mod reason;
mod replay_script;
mod said_event;
mod sending_line;
mod state_line;
mod values;

pub use control_line::{ControlLine, control_line_of};
pub use event_line::write_event;
pub use fault::BadLine;
pub use head::Head;
pub use head_line::write_head;
pub use laws::{
    control_lines, one_live_head, one_live_script, one_load_text, one_pair, one_script,
    scripts_fit_nodes, written_scripts_are_read,
};
pub use link_lines::{
    LineBuf, endpoint_of, line_at, put, put_decimal, put_endpoint, put_short_hex, put_signed,
    put_truth,
};
pub use link_script::{Act, AppCommand, BlockCommand, LiveScript};
pub use live_head::{HeadFault, LiveHead, read_live_head};
pub use live_script::{LiveFault, read_live};
pub use load::LoadEvents;
pub use pair::pair_of;
pub use reading_line::write_reading;
pub use reason::{
    Excerpt, Expected, Found, Reason, explain, explain_head, explain_live, explain_pair,
};
pub use replay_script::{check_replay, next_event};
pub use sending_line::write_sending;
pub use state_line::{write_done_line, write_load_line, write_state_line};
