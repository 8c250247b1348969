//! Runs of each loop over objects in memory, whole runs of the three, and a quit beside the turns.

mod audio;
mod devices;
mod events;
mod full_queue;
mod lines;
mod live_run;
mod network;
mod nodes;
mod script;
mod scripts;
