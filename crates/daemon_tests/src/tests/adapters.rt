//! The adapters over the real things, and over readers, writers and clocks in memory.

mod devices;
mod refusals;
mod streams;
mod tcp;
mod told;
mod udp;
