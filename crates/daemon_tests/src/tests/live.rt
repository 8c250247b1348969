//! The command `live`: whole runs through the top call, over objects in memory.

mod blocks;
mod counts;
mod events;
mod failed;
pub mod flags;
pub mod held;
mod long;
mod overlap;
mod peers;
mod recorded;
mod refused;
pub mod sides;
mod told;
mod worked;
