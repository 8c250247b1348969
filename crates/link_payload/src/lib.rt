//! The payloads of messages as entries, each a key, a size and a value: the states of peers, pings
//! and pongs, written and read.
//!
//! In reading order: `key`, `fault`, `fields`, `write`, `entry`, `last`, `range`, `read`, `laws`.
#![tactic(auto)]

mod entry;
mod fault;
mod fields;
mod key;
mod last;
mod laws;
mod range;
mod read;
mod write;

pub use entry::{Entry, EntryIter, entries};
pub use fault::PayloadFault;
pub use fields::{PeerFields, PingFields, PongFields};
pub use laws::{
    answered_fields, fields_are_stored, one_spelling, payload_lens, pong_reads_back,
    spelled_or_cut, state_reads_back,
};
pub use read::{read_pong, read_state};
pub use write::{write_ping, write_pong, write_state};
