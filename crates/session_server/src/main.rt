//! A session server: programs in any language drive one node over TCP, many at once, and come and go.
//!
//! In reading order: `fault`, `parts` (the words as options, flags and others), `options` and `gates` (what these say), `setup`, `words`
//! (the words together), `wrong` (what is wrong with them, for a person); `script` and `secret` (the files that they name); `telling`,
//! `mark` and `journal` (what is told, and when), `told_gates`, `watcher`; `session` (the run), and `status`.
#![tactic(auto)]

mod fault;
mod gates;
mod journal;
mod mark;
mod options;
mod parts;
mod script;
mod secret;
mod session;
mod setup;
mod status;
mod telling;
mod told_gates;
mod watcher;
mod words;
mod wrong;

ghost use Rattle.std.specs.Prelude.{map, IfOk};
ghost use Rattle.lk_base.specs.Ranges.{IsMoment};
ghost use Rattle.link_node.specs.Config.{gate_value};
ghost use Rattle.link_script.specs.LiveScript.{IsLiveHead};

use crate::script::read_script;
use crate::secret::secret_of;
use crate::session::serve_session;
use crate::setup::Setup;
use crate::status::Status;
use crate::watcher::Watcher;
use crate::words::{read_words, value_of};
use crate::wrong::Wrong;
use link_adapters::{About, BehindName, ClockPace, Counted, HostClock, StdSource, UdpPort};
use link_clients::Rig;
use link_text::LiveHead;
use lk_outside::{InputFault, read_all};
use serve_adapters::{Board, NotedPort, TcpTalks};
use std::alloc::Global;
use std::env;
use std::fs::File;
use std::io::ErrorKind;
use std::net::Net;
use std::process::ExitCode;
use std::sync::Wait;
use std::time::{Clock, SystemTime, UNIX_EPOCH};

/// How many bytes of a secret's file are read at most.
const MOST_SECRET: usize = 65_536;

fn main(rt: HostRuntime) -> ExitCode {
    let status = match read_asked(&rt) {
        Ok(Asked { setup, secret }) => {
            // What is sent to another thread stands on the runtime itself here, and not on a type parameter for it.
            match outside_of(rt, rt.alloc(), &setup, secret) {
                Ok(outside) => {
                    let (gates, most) = (setup.opening.gates.len(), setup.events);
                    let Outside {
                        seed,
                        opened_at,
                        clock,
                        port,
                        mut talks,
                    } = outside;
                    let board = Board::new();
                    let mut noted = NotedPort::new(port, &board);
                    let mut rig = Rig {
                        pace: ClockPace::new(rt, clock),
                        lookout: Watcher::new(rt, &board, gates, most, opened_at),
                    };
                    let (status, took) = serve_session(
                        &rt,
                        rt.alloc(),
                        setup,
                        seed,
                        opened_at,
                        &mut noted,
                        &mut talks,
                        &mut rig,
                    );
                    noted.inner().tell_refused();
                    tell_journal(&rt, took, most);
                    status
                }
                Err(status) => status,
            }
        }
        Err(status) => status,
    };
    let _printed = match status {
        Status::Done => Ok(()),
        Status::Words => eprintln!(rt; "{status}"),
        _ => eprintln!(rt; "session_server: {status}"),
    };
    ExitCode::from(status.number())
}

// Tells how full the journal got.
fn tell_journal<R: Eprint>(rt: &R, took: usize, most: u64) {
    let most = Counted(most, "event");
    let _printed = eprintln!(rt; "session_server: the journal took {took} of {most}");
}

/// What the words ask for, with what the files say that they name.
#[derive(Drop)]
struct Asked {
    setup: Setup,
    secret: Option<Vec<u8>>,
}

// What the words behind the program's name ask for. What is wrong with them is told.
fn read_asked(rt: &HostRuntime) -> Result<Asked, Status> {
    let behind = (BehindName { all: rt }, rt.alloc());
    let Ok(args) = env::args(&behind) else {
        return Err(Status::Words);
    };
    let Ok(words) = args.collect::<Vec<String>>(rt.alloc()) else {
        return Err(Status::Memory);
    };
    match read_words(&words) {
        Ok(setup) => {
            let setup = with_script(rt, &words, setup)?;
            let secret = match value_of(&words, "--secret") {
                Some(name) => Some(secret_in(rt, name)?),
                None => None,
            };
            Ok(Asked { setup, secret })
        }
        Err(fault) => {
            let wrong = Wrong {
                words: &words,
                fault,
            };
            let _printed = eprintln!(rt; "session_server: {wrong}\n");
            Err(Status::Words)
        }
    }
}

// The setup with the head of the script that the words name, if they name one.
fn with_script(rt: &HostRuntime, words: &[String], mut setup: Setup) -> Result<Setup, Status> {
    let Some(name) = value_of(words, "--script") else {
        return Ok(setup);
    };
    setup.opening = head_in(rt, name)?;
    Ok(setup)
}

// The head in a live script's file.
fn head_in(rt: &HostRuntime, name: &str) -> Result<LiveHead, Status>
    ensures { IfOk result (λ head. IsLiveHead head.mpb (map gate_value head.gates.items)) }
{
    let Ok(file) = File::open(rt, name) else {
        let _printed = eprintln!(rt;
            "session_server: the file \"{name}\" behind --script could not be opened\n"
        );
        return Err(Status::Words);
    };
    match read_script(rt.alloc(), &mut StdSource::new(file)) {
        Ok(head) => Ok(head),
        Err(fault) => {
            let _printed = eprintln!(rt; "session_server: the script \"{name}\": {fault}");
            Err(fault.status())
        }
    }
}

// The secret in a file.
fn secret_in(rt: &HostRuntime, name: &str) -> Result<Vec<u8>, Status> {
    let Ok(file) = File::open(rt, name) else {
        let _printed = eprintln!(rt;
            "session_server: the file \"{name}\" behind --secret could not be opened\n"
        );
        return Err(Status::Words);
    };
    let text = match read_all(rt.alloc(), &mut StdSource::new(file), MOST_SECRET) {
        Ok(text) => text,
        Err(InputFault::Memory(_)) => return Err(Status::Memory),
        Err(_) => {
            let _printed = eprintln!(rt;
                "session_server: the file \"{name}\" behind --secret could not be read, or has more than {MOST_SECRET} bytes\n"
            );
            return Err(Status::Words);
        }
    };
    let Some(word) = secret_of(&text) else {
        let _printed = eprintln!(rt;
            "session_server: the first line of the file \"{name}\" behind --secret has to have 1 to 100 bytes\n"
        );
        return Err(Status::Words);
    };
    match Vec::from_slice(rt.alloc(), word) {
        Ok(secret) => Ok(secret),
        Err(_) => Err(Status::Memory),
    }
}

/// What the system may refuse a session: a clock, and sockets. The seed is the nanoseconds since 1970.
#[derive(Drop)]
struct Outside<R: Net + Wait + Clock + Eprint + Input + Copy + Drop> {
    seed: u64,
    opened_at: i64,
    clock: HostClock,
    port: UdpPort<R>,
    talks: TcpTalks<R>,
    ghost moment: { IsMoment opened_at },
}

fn outside_of<R: Net + Wait + Clock + Eprint + Input + Copy + Drop>(
    rt: R,
    alloc: Global,
    setup: &Setup,
    secret: Option<Vec<u8>>,
) -> Result<Outside<R>, Status> {
    let (clock, seed) = clock_and_seed(&rt)?;
    let about = About {
        program: "session_server",
        command: "serve",
        blocks: None,
        events: setup.events,
        quantum: setup.quantum.unsigned_abs(),
        group: setup.group,
    };
    let port = match UdpPort::new(rt, alloc, clock, about) {
        Ok(port) => port,
        Err(error) => return Err(refused_as(error.kind(), Status::Network)),
    };
    let talks = match TcpTalks::new(rt, alloc, clock, secret, setup.until_input_ends) {
        Ok(talks) => talks,
        Err(error) => return Err(refused_as(error.kind(), Status::Talks)),
    };
    let Ok(opened_at) = clock.moment(&rt) else {
        return Err(Status::Time);
    };
    Ok(Outside {
        seed,
        opened_at,
        clock,
        port,
        talks,
    })
}

fn clock_and_seed<R: Clock>(rt: &R) -> Result<(HostClock, u64), Status> {
    let (Ok(clock), Ok(now)) = (HostClock::started(rt), SystemTime::now(rt)) else {
        return Err(Status::Time);
    };
    let since = now.duration_since(UNIX_EPOCH).unwrap_or_default();
    Ok((clock, u64::try_from(since.as_nanos()).unwrap_or(u64::MAX)))
}

// The status where sockets could not be made: that no memory was left, or else that of these sockets.
fn refused_as(kind: ErrorKind, otherwise: Status) -> Status {
    if kind == ErrorKind::OutOfMemory {
        Status::Memory
    } else {
        otherwise
    }
}
