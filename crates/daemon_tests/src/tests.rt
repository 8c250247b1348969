//! Whole runs through the top call over objects in memory, and the real things.

mod adapters;
mod control;
mod cut;
mod faults;
mod live;
mod rows;
mod runs;
