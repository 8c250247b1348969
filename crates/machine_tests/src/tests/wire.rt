//! Cases worked out by hand, and exchanges over a made-up network.

mod measurements;
mod payloads;
mod peers;
mod sessions;
