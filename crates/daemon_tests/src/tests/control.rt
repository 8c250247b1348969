//! The command `control`: whole runs through the top call, over objects in memory.

mod answers;
mod beside;
mod clients;
mod failed;
