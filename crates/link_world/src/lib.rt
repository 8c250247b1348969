//! Peers over a network that loses, repeats and reorders: what holds of them after any schedule of turns.
//!
//! In reading order: `turn`, `peer`, `world`, `stored`, `laws`.
#![tactic(auto)]

mod laws;
mod peer;
mod stored;
mod turn;
mod world;

pub use laws::{one_beat_clicks_nearly_at_once, one_world};
pub use turn::Turn;
pub use world::World;
