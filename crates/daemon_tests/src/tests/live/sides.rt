//! What a live run is given and what it leaves, in memory.

use super::super::runs::{empty_log, silent_talk, spelled};
use super::blocks::blocks_of;
use super::held::{Holding, Telling};
use link_daemon::{SessionLog, Status, link_main};
use link_live::Report;
use lk_outside::{BytesSink, BytesSource, ListAudio, ListPort, Pace, Port, Talk};
use std::alloc::{AllocError, Global};
use std::sync::Wait;
use std::sync::atomic::AtomicU64;
use std::thread::Threads;

/// The seed of the runs.
pub const SEED: u64 = 7;

/// The first id that the seed gives.
pub const OWN: &[u8; 8] = b"-ke:4:.`";

/// What a run is given besides its port, its talk and its pace, and what it leaves.
#[derive(Drop)]
pub struct Sides {
    pub input: BytesSource,
    pub audio: ListAudio,
    pub out: BytesSink,
    pub report: Report,
}

/// Objects that never fail: the script, so many blocks of 20,000 microseconds from 0 on, room for a million bytes, and a report of no run.
pub fn sides_over(alloc: Global, script: &[u8], blocks: u16) -> Result<Sides, AllocError> {
    let script = Vec::from_slice(alloc, script)?;
    let audio = ListAudio::new(alloc, blocks_of(alloc, blocks)?, Vec::new(alloc))?;
    let out = BytesSink::new(alloc, 1_000_000, 4096, Vec::new(alloc))?;
    Ok(Sides {
        input: BytesSource::new(script, 4096, Vec::new(alloc)),
        audio,
        out,
        report: Report::new(alloc),
    })
}

/// A port that nothing comes to, with room for so many datagrams.
pub fn quiet_port(alloc: Global, room: usize) -> Result<ListPort, AllocError> {
    ListPort::new(alloc, Vec::new(alloc), room, Vec::new(alloc))
}

impl Sides {
    /// Runs the program on these words, over a talk without contents.
    pub fn run<R: Threads + Wait + Sync, P: Port + Send, T: Pace + Send>(
        &mut self,
        rt: &R,
        alloc: Global,
        words: &str,
        port: &mut P,
        pace: &mut T,
    ) -> Result<Status, AllocError> {
        let mut talk = silent_talk(alloc)?;
        self.run_talking(
            rt,
            alloc,
            words,
            port,
            &mut talk,
            pace,
            &mut empty_log(alloc),
        )
    }

    /// The same with a pace that holds the commands until the port is over, which it gives back.
    pub fn run_held<R: Threads + Wait + Sync>(
        &mut self,
        rt: &R,
        alloc: Global,
        words: &str,
        port: ListPort,
    ) -> Result<(Status, ListPort), AllocError> {
        let (over, sent) = (AtomicU64::new(0), AtomicU64::new(0));
        let mut telling = Telling {
            port,
            over: &over,
            sent: &sent,
        };
        let status = self.run(rt, alloc, words, &mut telling, &mut Holding::new(&over))?;
        Ok((status, telling.port))
    }

    /// Runs the program on these words, over a talk.
    pub fn run_talking<R: Threads + Wait + Sync, P: Port + Send, L: Talk + Send, T: Pace + Send>(
        &mut self,
        rt: &R,
        alloc: Global,
        words: &str,
        port: &mut P,
        talk: &mut L,
        pace: &mut T,
        log: &mut SessionLog,
    ) -> Result<Status, AllocError> {
        let words = spelled(alloc, words)?;
        Ok(link_main(
            rt,
            alloc,
            &words,
            SEED,
            &mut self.input,
            port,
            &mut self.audio,
            talk,
            pace,
            &mut self.out,
            &mut self.report,
            log,
        ))
    }
}
