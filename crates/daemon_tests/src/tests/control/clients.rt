//! Runs under clients in memory.

ghost use Rattle.std.specs.Prelude.{◌<◌};

use super::super::live::sides::{Sides, quiet_port};
use super::super::runs::empty_log;
use link_daemon::Status;
use lk_outside::{ListPace, ListTalk};
use std::alloc::{AllocError, Global};
use std::sync::Wait;
use std::thread::Threads;

/// The words of a run that listens at 127.0.0.1:20900.
pub const WORDS: &str = "control 127.0.0.1:20900";

/// A node of its own at 120 beats a minute.
pub const SCRIPT: &str = "link 1\nsetup 500000 1\ngate 127.0.0.1:20808\n";

/// What its client is told of it where nothing has changed.
pub const OPENING: &[u8] = b"status 500000 0 0 0 0\n";

/// A client that sends these bytes, at most so many a read, with room for 100,000 bytes of answers.
pub fn client(alloc: Global, sent: &[u8], most: usize) -> Result<ListTalk, AllocError>
    requires { 0 < most }
{
    let sent = Vec::from_slice(alloc, sent)?;
    ListTalk::new(alloc, sent, most, 100_000, Vec::new(alloc))
}

/// Runs the program on these words, over a port that nothing comes to, and answers how it ended.
pub fn run_with<R: Threads + Wait + Sync>(
    rt: &R,
    alloc: Global,
    words: &str,
    sides: &mut Sides,
    talk: &mut ListTalk,
) -> Result<Status, AllocError> {
    let mut port = quiet_port(alloc, 0)?;
    sides.run_talking(
        rt,
        alloc,
        words,
        &mut port,
        talk,
        &mut ListPace::new(0),
        &mut empty_log(alloc),
    )
}
