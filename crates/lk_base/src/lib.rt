//! The types, ranges and roundings that every crate of the runtime shares: node ids and their source,
//! endpoints, timelines, starts, blocks of audio time and the bytes of one datagram.
//!
//! In reading order: `limits`, `rounding`, `ids`, `endpoint`, `timeline`, `start`, `block`, `wire`.
#![tactic(auto)]

mod block;
mod endpoint;
mod ids;
mod limits;
mod rounding;
mod start;
mod timeline;
mod wire;

pub use block::{Block, Click, Clicks};
pub use endpoint::{Endpoint, Gate, Target};
pub use ids::{IdSource, NodeId};
pub use limits::{LIMIT, MOMENT_MAX, is_within_limit};
pub use rounding::{clip, moved, near, one_nearest};
pub use start::{ClientStart, SessionStart};
pub use timeline::Timeline;
pub use wire::{Wire, append, u16_at, u32_at, u64_at};
