//! Sessions of many clients, in whole runs of two threads.

mod answers;
mod cuts;
mod ends;
mod faults;
mod flood;
mod numbers;
mod seats;
mod session;
mod told;
mod watches;
