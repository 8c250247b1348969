//! Runs of a node: the loop that owns the network beside the threads of a program, over one link; and a live run, which is one of these.
//!
//! In reading order: `network` (the loop), `rest`, `handing` (what an application hands to that loop), `side` (what runs beside it, and
//! what joins them), `node_run` (the one call that runs a node), `config` (that of a node with one gate). Of a live run: `edit`, `audio`
//! and `script` (the loops of its audio thread and of its application), `sides` (these as sides), `room`, `run`, `report`. What a program
//! needs of the crates below is handed on.
#![tactic(auto)]

mod audio;
mod config;
mod edit;
mod handing;
mod network;
mod node_run;
mod report;
mod rest;
mod room;
mod run;
mod script;
mod side;
mod sides;

pub use audio::{AudioReport, audio_loop};
pub use client_state::{Commit, State};
pub use config::one_gate_config;
pub use edit::commit_of;
pub use handing::{ask_to_end, hand_over};
pub use link_node::{Config, GateSetup, Sends};
pub use link_shared::{AppPass, AudioPass, Capture, Link, LinkName, Parts};
pub use lk_base::{Block, Endpoint, NodeId};
pub use lk_outside::{Audio, ListPort, Next, Port};
pub use network::{NetEnd, network_loop, post, run_laws};
pub use node_run::{NodeRun, bind, locals, run_node};
pub use report::Report;
pub use room::{Room, scripts_have_commands};
pub use run::{LiveEnd, LiveRun, ends_tell_courses, live_run};
pub use script::{ScriptReport, script_loop};
pub use side::{AppSide, AudioSide, Idle};
pub use timeline_math::beat_at;
pub use triple_buffer::Triple;
