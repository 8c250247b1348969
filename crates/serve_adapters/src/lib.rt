//! The real things of a session server: talks with many clients over TCP, and what their side sees of the port of the node.
//!
//! In reading order: `answers` (what calls of the system say), `greeting` (a client's first line), `outbox` (bytes on their way to a
//! client), `telling`, `input`, `hall` (everyone who is there) with its parts, `tcp_talks`; `board` and `noted_port`.
#![tactic(auto)]

mod answers;
mod board;
mod greeting;
mod hall;
mod input;
mod noted_port;
mod outbox;
mod tcp_talks;
mod telling;

pub use answers::{ended_of, heard_of, is_spent, waits_of};
pub use board::{Board, Sighting};
pub use greeting::{Greeting, greeting_of};
pub use noted_port::NotedPort;
pub use outbox::Outbox;
pub use tcp_talks::TcpTalks;
