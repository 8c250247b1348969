//! The discovery messages by which peers tell each other of themselves, and the pings and pongs by
//! which they compare their clocks: each is one datagram.
//!
//! In reading order: `header`, `message`, `fault`, `write`, `laws`, `read`.
#![tactic(auto)]

mod fault;
mod header;
mod laws;
mod message;
mod read;
mod write;

pub use fault::WireFault;
pub use laws::{
    all_are_read, measurements_tell_no_state, one_reading, one_reading_each, ping_payload_len,
    read_messages, written_is_read,
};
pub use message::{Message, StateMsg};
pub use read::read_datagram;
pub use write::{write_alive, write_bye, write_ping_message, write_pong_message, write_response};
