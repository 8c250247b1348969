//! Objects in memory: that their calls succeed where memory is left, which calls fail, and what stands after each.

mod devices;
mod ports;
mod sinks;
mod sources;
mod talks;
