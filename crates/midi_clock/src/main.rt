//! A MIDI clock that plays: what listens to it follows the tempo, the beat and the start of a session.
//!
//! In reading order: `counts`, `sending` (messages, each when its time has come), `telling` (what is told meanwhile), `player` (the loop of
//! the audio thread), `sides` (that loop as what runs beside the network's), `session` (both over one link), which stands on `rig`; last
//! `words` and `status`.
#![tactic(auto)]

mod counts;
mod player;
mod rig;
mod sending;
mod session;
mod sides;
mod status;
mod telling;
mod words;

ghost use Rattle.lk_base.specs.Ranges.{IsMoment};

use crate::rig::{Devices, EVENTS, Outlet};
use crate::sending::Tally;
use crate::session::play_session;
use crate::status::Status;
use crate::words::{Setup, Wrong, read_words};
use link_adapters::{About, BehindName, ClockPace, Counted, HostClock, StdSink, UdpPort};
use std::alloc::Global;
use std::env;
use std::io::{ErrorKind, Write};
use std::net::Net;
use std::process::ExitCode;
use std::sync::Wait;
use std::time::{Clock, SystemTime, UNIX_EPOCH};

fn main(rt: HostRuntime) -> ExitCode {
    let status = match setup_of(&rt) {
        Ok(setup) => {
            tell_length(&rt, &setup);
            // What is sent to another thread stands on the runtime itself here, and not on a type parameter for it.
            match outside_of(rt, rt.alloc(), &setup) {
                Ok(outside) => {
                    let mut devices = devices_of(rt, outside, rt.stdout());
                    let (status, tally) = play_session(&rt, rt.alloc(), setup, &mut devices);
                    tell_sent(&rt, &tally);
                    devices.port.tell_refused();
                    status
                }
                Err(status) => status,
            }
        }
        Err(status) => status,
    };
    let _printed = match status {
        Status::Done => Ok(()),
        Status::Words => eprintln!(rt; "{status}"),
        _ => eprintln!(rt; "midi_clock: {status}"),
    };
    ExitCode::from(status.number())
}

// What the words behind the program's name ask for. What is wrong with them is told.
fn setup_of(rt: &HostRuntime) -> Result<Setup, Status> {
    let behind = (BehindName { all: rt }, rt.alloc());
    let Ok(args) = env::args(&behind) else {
        return Err(Status::Words);
    };
    let Ok(words) = args.collect::<Vec<String>>(rt.alloc()) else {
        return Err(Status::Memory);
    };
    match read_words(&words) {
        Ok(setup) => Ok(setup),
        Err(fault) => {
            let wrong = Wrong {
                words: &words,
                fault,
            };
            let _printed = eprintln!(rt; "midi_clock: {wrong}\n");
            Err(Status::Words)
        }
    }
}

fn tell_length<R: Eprint>(rt: &R, setup: &Setup) {
    let seconds = Counted(u64::from(setup.seconds), "second");
    let _printed = eprintln!(rt; "midi_clock: listens for half a second, then plays for {seconds}");
}

fn tell_sent<R: Eprint>(rt: &R, tally: &Tally) {
    let clocks = Counted(tally.counts.clocks, "clock");
    let starts = Counted(tally.counts.starts, "start");
    let continues = Counted(tally.counts.continues, "continue");
    let stops = Counted(tally.counts.stops, "stop");
    let latest = Counted(tally.latest.unsigned_abs(), "microsecond");
    let _printed = eprintln!(rt;
        "midi_clock: sent {clocks}, {starts}, {continues}, {stops}; the latest message was {latest} late"
    );
}

/// What the system may refuse a session: a clock, and sockets. The seed is the nanoseconds since 1970.
#[derive(Drop)]
struct Outside<R: Net + Wait + Clock + Eprint + Copy + Drop> {
    seed: u64,
    opened_at: i64,
    clock: HostClock,
    port: UdpPort<R>,
    ghost moment: { IsMoment opened_at },
}

fn outside_of<R: Net + Wait + Clock + Eprint + Copy + Drop>(
    rt: R,
    alloc: Global,
    setup: &Setup,
) -> Result<Outside<R>, Status> {
    let (clock, seed) = clock_and_seed(&rt)?;
    let about = About {
        program: "midi_clock",
        command: "session",
        blocks: None,
        events: EVENTS,
        quantum: setup.quantum.unsigned_abs(),
        group: setup.group,
    };
    let port = port_of(rt, alloc, clock, about)?;
    let Ok(opened_at) = clock.moment(&rt) else {
        return Err(Status::Time);
    };
    Ok(Outside {
        seed,
        opened_at,
        clock,
        port,
    })
}

fn clock_and_seed<R: Clock>(rt: &R) -> Result<(HostClock, u64), Status> {
    let (Ok(clock), Ok(now)) = (HostClock::started(rt), SystemTime::now(rt)) else {
        return Err(Status::Time);
    };
    let since = now.duration_since(UNIX_EPOCH).unwrap_or_default();
    Ok((clock, u64::try_from(since.as_nanos()).unwrap_or(u64::MAX)))
}

fn devices_of<R: Net + Wait + Clock + Eprint + Copy + Drop, M: Write + Drop>(
    rt: R,
    outside: Outside<R>,
    midi: M,
) -> Devices<UdpPort<R>, ClockPace<R>, StdSink<M>> {
    let Outside {
        seed,
        opened_at,
        clock,
        port,
    } = outside;
    Devices {
        seed,
        opened_at,
        port,
        outlet: Outlet {
            pace: ClockPace::new(rt, clock),
            midi: StdSink::new(midi),
        },
    }
}

// The port of a session. The status says that no memory was left, or that the system has no network.
fn port_of<R: Net + Wait + Clock + Eprint + Copy + Drop>(
    rt: R,
    alloc: Global,
    clock: HostClock,
    about: About,
) -> Result<UdpPort<R>, Status> {
    match UdpPort::new(rt, alloc, clock, about) {
        Ok(port) => Ok(port),
        Err(error) if error.kind() == ErrorKind::OutOfMemory => Err(Status::Memory),
        Err(_) => Err(Status::Network),
    }
}
