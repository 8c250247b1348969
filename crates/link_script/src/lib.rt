//! What scripts say: the grammars of replay scripts and of live scripts, and a live script once it is read.
//!
//! Replay scripts are definitions alone here: a node's config and its events are of `link_node`. `link_text` reads and writes both.
#![tactic(auto)]

mod live_script;

pub use live_script::{Act, AppCommand, BlockCommand, LiveScript};
