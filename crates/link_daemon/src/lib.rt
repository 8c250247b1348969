//! The top call, and the command `control`. What the crates below have for a program it hands on: the other commands, the statuses, and
//! the real things that a program reads from and writes to.
//!
//! In reading order: `top` (the top call), `control` (the command `control`, over the run of `link_control`), `usage_text` (what is told
//! of words that are no command).
#![tactic(auto)]

mod control;
mod top;
mod usage_text;

pub use control::control_main;
pub use link_adapters::{
    BehindName, ClickAudio, ClockPace, HostClock, StdSink, StdSource, TcpTalk, UdpPort,
};
pub use link_commands::{
    Grammar, Reason, Status, decode_main, filter_main, load_main, midi_main, one_filter_text,
    one_output, replay_main,
};
pub use link_control::{LineLog, Served, SessionLog, serve};
pub use link_live::{AudioReport, NetEnd, Report, audio_loop, network_loop};
pub use link_live_command::live_main;
pub use link_script::{Act, AppCommand, BlockCommand, LiveScript};
pub use top::link_main;
pub use usage_text::{unreadable_usage, usage};
