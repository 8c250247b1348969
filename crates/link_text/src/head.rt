//! The head of a replay script: how the node is opened.

use link_node::Config;

/// How the node of a script is opened, and where the lines of its events begin.
#[derive(Debug, Drop)]
pub struct Head {
    /// Of the script's grammar: 1 or 2.
    pub version: u8,
    pub config: Config,
    /// The opening moment, in microseconds.
    pub now: i64,
    /// The place of the first event's line in the text, or the text's length where there is none.
    pub first: usize,
}
