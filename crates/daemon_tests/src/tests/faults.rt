//! Calls that fail, objects that move a byte a call, and an input without an end.

ghost use Rattle.std.specs.Prelude.{None};

use super::runs::{Texts, run, text_of, texts_of};
use link_daemon::Status;
use lk_outside::{BytesSink, Source, Taken};
use std::alloc::{AllocError, Global};
use std::sync::Wait;
use std::test::Fail;
use std::thread::Threads;

/// A source without an end, which fills each piece.
#[derive(Drop)]
struct Endless;

impl Source for Endless {
    ghost seen = { λ _. record { told = None; faults = 0 } };

    fn read(&mut self, buf: &mut [u8]) -> Taken {
        Taken::Got(buf.len())
    }
}

// rule: IfNothingWritten, replay_command, decode_command
#[test]
fn an_input_over_the_limit_writes_nothing(rt: HostRuntime) -> Result<(), Fail> {
    assert!(rt; writes_nothing(&rt, rt.alloc())?);
    Ok(())
}

fn writes_nothing<R: Threads + Wait + Sync>(rt: &R, alloc: Global) -> Result<bool, AllocError> {
    let mut out = BytesSink::new(alloc, 100, 100, Vec::new(alloc))?;
    is_too_long(rt, alloc, &mut out)
}

// Whether a script of more than 2^30 bytes is told as such, and nothing is written.
fn is_too_long<R: Threads + Wait + Sync>(
    rt: &R,
    alloc: Global,
    out: &mut BytesSink,
) -> Result<bool, AllocError> {
    let status = run(rt, alloc, "replay", &mut Endless, out)?;
    let wanted = Status::TooLong {
        limit: 1_073_741_824,
    };
    Ok(status == wanted && out.bytes().is_empty())
}

/// A run that is tried.
#[derive(Clone, Copy)]
enum Tried {
    Alive,
    Head,
    Decode,
    Filter,
    Midi,
    Load,
}

/// A run whose objects move a byte a call, of which one may fail.
#[derive(Clone, Copy)]
struct Case {
    tried: Tried,
    /// The number of the read that fails, from 1; 0 for none.
    bad_read: u64,
    /// The number of the write that fails, from 1; 0 for none.
    bad_write: usize,
    /// The number of its status.
    status: u8,
}

const CASES: &[Case] = &[
    Case {
        tried: Tried::Alive,
        bad_read: 1,
        bad_write: 0,
        status: 5,
    },
    Case {
        tried: Tried::Head,
        bad_read: 2,
        bad_write: 0,
        status: 5,
    },
    Case {
        tried: Tried::Head,
        bad_read: 3,
        bad_write: 0,
        status: 5,
    },
    Case {
        tried: Tried::Alive,
        bad_read: 0,
        bad_write: 1,
        status: 7,
    },
    Case {
        tried: Tried::Head,
        bad_read: 0,
        bad_write: 2,
        status: 7,
    },
    Case {
        tried: Tried::Head,
        bad_read: 0,
        bad_write: 3,
        status: 7,
    },
    Case {
        tried: Tried::Decode,
        bad_read: 0,
        bad_write: 18,
        status: 7,
    },
    Case {
        tried: Tried::Filter,
        bad_read: 4,
        bad_write: 0,
        status: 5,
    },
    Case {
        tried: Tried::Filter,
        bad_read: 0,
        bad_write: 22,
        status: 7,
    },
    Case {
        tried: Tried::Midi,
        bad_read: 2,
        bad_write: 0,
        status: 5,
    },
    Case {
        tried: Tried::Midi,
        bad_read: 0,
        bad_write: 18,
        status: 7,
    },
    Case {
        tried: Tried::Load,
        bad_read: 0,
        bad_write: 1,
        status: 7,
    },
    Case {
        tried: Tried::Load,
        bad_read: 0,
        bad_write: 2,
        status: 7,
    },
    Case {
        tried: Tried::Load,
        bad_read: 0,
        bad_write: 12,
        status: 7,
    },
    Case {
        tried: Tried::Load,
        bad_read: 0,
        bad_write: 13,
        status: 7,
    },
    // None of them fails.
    Case {
        tried: Tried::Alive,
        bad_read: 0,
        bad_write: 0,
        status: 0,
    },
];

// The words of a run, its input and the front of its output, as far as it is looked at. In the texts letters stand for longer ones, as
// `text_of` says.
fn texts_tried(tried: Tried) -> (&'static str, &'static str, &'static str) {
    match tried {
        Tried::Alive => (
            "replay",
            "=rx 1000100 0 127.0.0.1:20808 @\n",
            "%tx 1000100 0 127.0.0.1:20808 &\ndone 1 1 1\n",
        ),
        Tried::Head => ("replay", "=", "%"),
        Tried::Decode => ("decode", "00\n00\n", "fault short 1\nfault short 1\n"),
        Tried::Filter => (
            "filter",
            "0 0\n512 11610\n0 0",
            "host 0\nhost 11610\nlate 512\n",
        ),
        Tried::Midi => ("midi 1 1", "=", "midi 1000000 f8\ndone 1 1\n"),
        Tried::Load => ("load 0 1", "", "load 1 1 1\nstate "),
    }
}

// rule: WritesPart, IfNothingWritten
#[test]
fn a_call_that_fails_leaves_the_front_of_the_output(rt: HostRuntime) -> Result<(), Fail> {
    for case in CASES {
        let (words, _, _) = texts_tried(case.tried);
        let (read, write) = (case.bad_read, case.bad_write);
        assert!(rt;
            leaves_front(&rt, rt.alloc(), *case)?,
            "{words}, read {read}, write {write}"
        );
    }
    Ok(())
}

fn leaves_front<R: Threads + Wait + Sync>(
    rt: &R,
    alloc: Global,
    case: Case,
) -> Result<bool, AllocError> {
    let (_, input, _) = texts_tried(case.tried);
    let mut texts = texts_of(alloc, input, 1, case.bad_read, case.bad_write as u64)?;
    leaves(rt, alloc, case, &mut texts)
}

fn leaves<R: Threads + Wait + Sync>(
    rt: &R,
    alloc: Global,
    case: Case,
    texts: &mut Texts,
) -> Result<bool, AllocError> {
    let (words, _, output) = texts_tried(case.tried);
    let status = run(rt, alloc, words, &mut texts.input, &mut texts.out)?;
    let output = text_of(alloc, output)?;
    Ok(status.number() == case.status && texts.out.bytes() == front_of(&output, case))
}

// What is written: nothing where a read fails, a byte by each write before one that fails, and else all.
fn front_of(output: &[u8], case: Case) -> &[u8] {
    if case.status == 0 {
        return output;
    }
    output
        .get(..case.bad_write.saturating_sub(1))
        .unwrap_or(output)
}
