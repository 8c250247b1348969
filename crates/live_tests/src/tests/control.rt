//! Sessions of one client over a talk in memory, and whole runs of two threads.

mod answers;
mod faults;
mod moments;
mod newer;
mod node;
mod run;
mod session;
