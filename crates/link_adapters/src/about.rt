//! What is told of a run on the network when it begins.

use crate::counted::{Counted, Millionths};
use std::fmt;

/// How long a block is, in microseconds.
const BLOCK_LENGTH: u64 = 20_000;

/// A million: the microseconds of a second, and the microbeats of a beat.
const MILLION: u64 = 1_000_000;

/// How a run was set up: the program's name, which begins each line that is told, the command's word, how many blocks of 20 milliseconds it
/// plays at most, where it plays any, how many events find room, the quantum that bars are counted in at first, in microbeats, which is 0
/// where there is none, and the group of the messages that are heard and sent.
#[derive(Clone, Copy, Debug)]
pub struct About {
    pub program: &'static str,
    pub command: &'static str,
    pub blocks: Option<u64>,
    pub events: u64,
    pub quantum: u64,
    pub group: u16,
}

impl fmt::Display for About {
    fn fmt<W: fmt::Write>(&self, f: &mut fmt::Formatter<W>) -> fmt::Result {
        let events = Counted(self.events, "event");
        let bars = Bars(self.quantum);
        let group = Group(self.group);
        if let Some(blocks) = self.blocks {
            let blocks = Blocks(blocks);
            write!(f, "{blocks}, ")?;
        }
        write!(f, "room for {events}, {bars}{group}")
    }
}

/// So many blocks, and how long they are together.
#[derive(Clone, Copy)]
struct Blocks(u64);

impl fmt::Display for Blocks {
    fn fmt<W: fmt::Write>(&self, f: &mut fmt::Formatter<W>) -> fmt::Result {
        if self.0 == 0 {
            return write!(f, "no blocks");
        }
        let blocks = Counted(self.0, "block");
        let length = Length(self.0.saturating_mul(BLOCK_LENGTH));
        write!(f, "at most {blocks} of 20 milliseconds ({length})")
    }
}

/// A span of so many microseconds: in seconds below two minutes, and else in whole minutes and hours.
#[derive(Clone, Copy)]
struct Length(u64);

impl fmt::Display for Length {
    fn fmt<W: fmt::Write>(&self, f: &mut fmt::Formatter<W>) -> fmt::Result {
        let minutes = self.0 / (60 * MILLION);
        if minutes < 2 {
            let seconds = Parts(self.0, "second");
            return write!(f, "{seconds}");
        }
        let hours = Counted(minutes / 60, "hour");
        let rest = Counted(minutes % 60, "minute");
        if minutes < 60 {
            write!(f, "{rest}")
        } else if minutes % 60 == 0 {
            write!(f, "{hours}")
        } else {
            write!(f, "{hours} {rest}")
        }
    }
}

/// A number in millionths of something, by the word for one of it.
#[derive(Clone, Copy)]
struct Parts<'a>(u64, &'a str);

impl<'a> fmt::Display for Parts<'a> {
    fn fmt<W: fmt::Write>(&self, f: &mut fmt::Formatter<W>) -> fmt::Result {
        let number = Millionths(self.0);
        let word = self.1;
        if self.0 == MILLION {
            write!(f, "1 {word}")
        } else {
            write!(f, "{number} {word}s")
        }
    }
}

/// Bars of so many microbeats.
#[derive(Clone, Copy)]
struct Bars(u64);

impl fmt::Display for Bars {
    fn fmt<W: fmt::Write>(&self, f: &mut fmt::Formatter<W>) -> fmt::Result {
        let beats = Parts(self.0, "beat");
        if self.0 == 0 {
            write!(f, "no bars")
        } else if self.0 < MILLION {
            write!(f, "bars of {beats}, so every click is an accent")
        } else {
            write!(f, "bars of {beats}")
        }
    }
}

/// A group behind what was told before; of 0, the one that is usual, nothing is told.
#[derive(Clone, Copy)]
struct Group(u16);

impl fmt::Display for Group {
    fn fmt<W: fmt::Write>(&self, f: &mut fmt::Formatter<W>) -> fmt::Result {
        let group = self.0;
        if group == 0 {
            return Ok(());
        }
        write!(f, ", group {group}")
    }
}
