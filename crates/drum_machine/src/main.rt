//! A drum machine that embeds the runtime: a pattern of 16 steps, on the beat of a session and at its tempo.
//!
//! In reading order: `callback` (the audio callback, and an edit of its own); `rehearsal` (four bars in memory, in one thread), `score`
//! (what it tells); `player` (the loop of the audio thread), `sides` (that loop as what runs beside the network's), `session` (both over
//! one link), which stands on `rig`; last `words`, `input` and `status`.
#![tactic(auto)]

mod callback;
mod input;
mod player;
mod rehearsal;
mod rig;
mod score;
mod session;
mod sides;
mod status;
mod words;

ghost use Rattle.lk_base.specs.Ranges.{IsMoment};

use crate::callback::QUANTUM;
use crate::input::read_input;
use crate::rehearsal::rehearse;
use crate::rig::{Devices, EVENTS, Outlet};
use crate::session::play_session;
use crate::status::Status;
use crate::words::{Words, read_words};
use link_adapters::{About, BehindName, ClickAudio, HostClock, StdSink, StdSource, UdpPort};
use std::alloc::Global;
use std::env;
use std::io::{ErrorKind, Write};
use std::net::Net;
use std::process::ExitCode;
use std::sync::Wait;
use std::time::{Clock, SystemTime, UNIX_EPOCH};
use step_sequencer::Pattern;

// How long it listens before its first block, in microseconds, so that it begins in the session that is there: a peer tells of itself at
// least every 250 milliseconds.
const LISTENS: i64 = 500_000;

// Without words it rehearses, and with words it joins the network. Either way the pattern comes on standard input.
fn main(rt: HostRuntime) -> ExitCode {
    let status = match asked(&rt) {
        Ok(asked) => {
            let (words, pattern) = asked;
            match words {
                Words::Rehearsal => {
                    rehearse(&rt, rt.alloc(), pattern, &mut StdSink::new(rt.stdout()))
                }
                // What is sent to another thread stands on the runtime itself here, and not on a type parameter for it.
                Words::Session(setup) => {
                    match outside_of(rt, rt.alloc(), setup.blocks, rt.stderr()) {
                        Ok(outside) => {
                            let mut devices = devices_of(outside, rt.stdout(), rt.stderr());
                            let status = play_session(
                                &rt,
                                rt.alloc(),
                                setup,
                                pattern,
                                &mut devices,
                            );
                            devices.port.tell_refused();
                            status
                        }
                        Err(status) => status,
                    }
                }
            }
        }
        Err(status) => status,
    };
    if status != Status::Done {
        let _printed = eprintln!(rt; "drum_machine: {status}");
    }
    ExitCode::from(status.number())
}

// What the words ask for, and the pattern.
fn asked(rt: &HostRuntime) -> Result<(Words, Pattern), Status> {
    let words = words_of(rt)?;
    let pattern = read_input(rt.alloc(), &mut StdSource::new(rt.stdin()))?;
    Ok((words, pattern))
}

// What the words behind the program's name ask for.
fn words_of(rt: &HostRuntime) -> Result<Words, Status> {
    let behind = (BehindName { all: rt }, rt.alloc());
    let Ok(args) = env::args(&behind) else {
        return Err(Status::Words);
    };
    match args.collect::<Vec<String>>(rt.alloc()) {
        Ok(words) => read_words(&words).ok_or(Status::Words),
        Err(_) => Err(Status::Memory),
    }
}

/// What the system may refuse a session: sockets, and an audio device that asks for blocks by the machine's clock. The seed is the
/// nanoseconds since 1970.
#[derive(Drop)]
struct Outside<R: Net + Wait + Clock + Eprint + Copy + Drop, E: Write + Drop> {
    seed: u64,
    opened_at: i64,
    port: UdpPort<R>,
    audio: ClickAudio<E, R>,
    ghost moment: { IsMoment opened_at },
}

fn outside_of<R: Net + Wait + Clock + Eprint + Copy + Drop, E: Write + Drop>(
    rt: R,
    alloc: Global,
    blocks: u32,
    clicks: E,
) -> Result<Outside<R, E>, Status> {
    let (clock, seed) = clock_and_seed(&rt)?;
    let about = About {
        program: "drum_machine",
        command: "session",
        blocks: Some(u64::from(blocks)),
        events: EVENTS,
        quantum: QUANTUM.unsigned_abs(),
        group: 0,
    };
    let port = port_of(rt, alloc, clock, about)?;
    // The node comes first: where its first block begins, it is open, and has listened.
    let (Ok(opened_at), Ok(audio)) = (clock.moment(&rt), ClickAudio::new(clicks, rt, clock)) else {
        return Err(Status::Audio);
    };
    Ok(Outside {
        seed,
        opened_at,
        port,
        audio: audio.later(LISTENS),
    })
}

fn clock_and_seed<R: Clock>(rt: &R) -> Result<(HostClock, u64), Status> {
    let (Ok(clock), Ok(now)) = (HostClock::started(rt), SystemTime::now(rt)) else {
        return Err(Status::Audio);
    };
    let since = now.duration_since(UNIX_EPOCH).unwrap_or_default();
    Ok((clock, u64::try_from(since.as_nanos()).unwrap_or(u64::MAX)))
}

// The sound is written to `sound`, the MIDI clock beside it to `midi`.
fn devices_of<
    R: Net + Wait + Clock + Eprint + Copy + Drop,
    W: Write + Drop,
    M: Write + Drop,
    E: Write + Drop,
>(
    outside: Outside<R, E>,
    sound: W,
    midi: M,
) -> Devices<UdpPort<R>, ClickAudio<E, R>, StdSink<W>, StdSink<M>> {
    let Outside {
        seed,
        opened_at,
        port,
        audio,
    } = outside;
    Devices {
        seed,
        opened_at,
        port,
        outlet: Outlet {
            audio,
            sound: StdSink::new(sound),
            midi: StdSink::new(midi),
        },
    }
}

// The port of a session. The status says that no memory was left, or that the system has no network.
fn port_of<R: Net + Wait + Clock + Eprint + Copy + Drop>(
    rt: R,
    alloc: Global,
    clock: HostClock,
    about: About,
) -> Result<UdpPort<R>, Status> {
    match UdpPort::new(rt, alloc, clock, about) {
        Ok(port) => Ok(port),
        Err(error) if error.kind() == ErrorKind::OutOfMemory => Err(Status::Memory),
        Err(_) => Err(Status::Network),
    }
}
