//! The program: its words, and the real things that its top call reads from, writes to, plays on and talks with.
#![tactic(auto)]

use link_adapters::{About, Counted};
use link_control::{MOST_LINES, SessionLog};
use link_daemon::{
    BehindName, ClickAudio, ClockPace, HostClock, Report, Status, StdSink, StdSource, TcpTalk,
    UdpPort, link_main, unreadable_usage, usage,
};
use link_words::{CommandName, WordsFault, command_named, control_options, live_options};
use lk_outside::{ListAudio, ListPace, ListPort, ListTalk, Sink, Source};
use std::alloc::{AllocError, Global};
use std::io::{ErrorKind, Write};
use std::net::Net;
use std::process::ExitCode;
use std::sync::Wait;
use std::thread::Threads;
use std::time::{Clock, SystemTime, UNIX_EPOCH};
use std::{env, io};

fn main(rt: HostRuntime) -> ExitCode {
    let words = words_of(&rt);
    let status = match &words {
        Ok(words) => {
            let mut input = StdSource::new(rt.stdin());
            let mut out = StdSink::new(rt.stdout());
            let status = if is_named(words, CommandName::Live)
                || is_named(words, CommandName::Control)
            {
                // What is sent to another thread stands on the runtime itself here, and not on a type parameter for it.
                match devices_of(rt, rt.alloc(), words, rt.stderr()) {
                    Ok(
                        Devices {
                            about,
                            seed,
                            mut port,
                            mut audio,
                            mut pace,
                        },
                    ) => {
                        let mut talk = TcpTalk::new(rt);
                        let mut report = Report::new(rt.alloc());
                        let mut log = empty_log(rt.alloc());
                        let status = link_main(
                            &rt,
                            rt.alloc(),
                            words,
                            seed,
                            &mut input,
                            &mut port,
                            &mut audio,
                            &mut talk,
                            &mut pace,
                            &mut out,
                            &mut report,
                            &mut log,
                        );
                        port.tell_refused();
                        tell_run(&rt, words, about, &report, log.lines.len(), status);
                        status
                    }
                    Err(status) => status,
                }
            } else {
                run_alone(&rt, rt.alloc(), words, &mut input, &mut out)
            };
            tell(&rt, status, words, input.last_error(), out.last_error());
            status
        }
        Err(error) => tell_unreadable(&rt, error.kind()),
    };
    ExitCode::from(status.number())
}

// Whether the words name this command.
fn is_named(words: &[String], command: CommandName) -> bool {
    command_named(words) == Some(command)
}

// Runs a command that needs no network, device or clock, over objects that hold nothing.
fn run_alone<R: Threads + Wait + Sync, S: Source, K: Sink>(
    rt: &R,
    alloc: Global,
    words: &[String],
    input: &mut S,
    out: &mut K,
) -> Status {
    let (Ok(mut port), Ok(mut audio), Ok(mut talk)) = (
        ListPort::new(alloc, Vec::new(alloc), 0, Vec::new(alloc)),
        ListAudio::new(alloc, Vec::new(alloc), Vec::new(alloc)),
        ListTalk::new(alloc, Vec::new(alloc), 1, 0, Vec::new(alloc)),
    ) else {
        return Status::Memory;
    };
    link_main(
        rt,
        alloc,
        words,
        0,
        input,
        &mut port,
        &mut audio,
        &mut talk,
        &mut ListPace::new(0),
        out,
        &mut Report::new(alloc),
        &mut empty_log(alloc),
    )
}

// A log without room, which a run under control takes itself.
fn empty_log(alloc: Global) -> SessionLog {
    SessionLog {
        lines: Vec::new(alloc),
    }
}

/// The devices of a run on the network, which share a clock that starts when they are made, its seed, and what is told of it.
#[derive(Drop)]
struct Devices<R: Net + Wait + Clock + Eprint + Copy + Drop, W: Write + Drop> {
    about: About,
    seed: u64,
    port: UdpPort<R>,
    audio: ClickAudio<W, R>,
    pace: ClockPace<R>,
}

// The devices of the run that the words set up. Its seed is the nanoseconds since 1970. Where the words set up none, or the system has no
// network or tells no time, the status says so.
fn devices_of<R: Net + Wait + Clock + Eprint + Copy + Drop, W: Write + Drop>(
    rt: R,
    alloc: Global,
    words: &[String],
    clicks: W,
) -> Result<Devices<R, W>, Status> {
    let about = about_of(alloc, words)?;
    let (Ok(clock), Ok(now)) = (HostClock::started(&rt), SystemTime::now(&rt)) else {
        return Err(untimed(words));
    };
    let port = port_of(rt, alloc, clock, about)?;
    let Ok(audio) = ClickAudio::new(clicks, rt, clock) else {
        return Err(untimed(words));
    };
    let since = now.duration_since(UNIX_EPOCH).unwrap_or_default();
    Ok(Devices {
        about,
        seed: u64::try_from(since.as_nanos()).unwrap_or(u64::MAX),
        port,
        audio,
        pace: ClockPace::new(rt, clock),
    })
}

// The port of a run. The status says that no memory was left, or that the system has no network.
fn port_of<R: Net + Wait + Clock + Eprint + Copy + Drop>(
    rt: R,
    alloc: Global,
    clock: HostClock,
    about: About,
) -> Result<UdpPort<R>, Status> {
    match UdpPort::new(rt, alloc, clock, about) {
        Ok(port) => Ok(port),
        Err(error) if error.kind() == ErrorKind::OutOfMemory => Err(Status::Memory),
        Err(_) => Err(Status::Port),
    }
}

// The status where the system tells no time: `control` has no audio device that would lack it.
fn untimed(words: &[String]) -> Status {
    if is_named(words, CommandName::Control) {
        Status::Port
    } else {
        Status::Audio
    }
}

// How the words set up a run. The status says that they don't, or that no memory was left to read them.
fn about_of(alloc: Global, words: &[String]) -> Result<About, Status> {
    let about = if is_named(words, CommandName::Control) {
        about_control(alloc, words)
    } else {
        about_live(alloc, words)
    };
    match about {
        Ok(about) => Ok(about),
        Err(WordsFault::NotTaken) => Err(Status::Words),
        Err(WordsFault::Memory) => Err(Status::Memory),
    }
}

fn about_live(alloc: Global, words: &[String]) -> Result<About, WordsFault> {
    let options = live_options(alloc, words)?;
    Ok(About {
        program: "jorazhil",
        command: CommandName::Live.word(),
        blocks: Some(options.blocks),
        events: options.events,
        quantum: options.quantum.unsigned_abs(),
        group: options.group,
    })
}

// No block is played under control.
fn about_control(alloc: Global, words: &[String]) -> Result<About, WordsFault> {
    let options = control_options(alloc, words)?;
    Ok(About {
        program: "jorazhil",
        command: CommandName::Control.word(),
        blocks: None,
        events: options.events,
        quantum: options.quantum.unsigned_abs(),
        group: options.group,
    })
}

// Tells of a run that had begun, and so published a state, how full its journal got, and what its commands or its client's lines came to.
fn tell_run(
    rt: &HostRuntime,
    words: &[String],
    about: About,
    report: &Report,
    lines: usize,
    status: Status,
) {
    if report.published.is_empty() {
        return;
    }
    tell_journal(rt, about, report);
    if is_named(words, CommandName::Control) {
        tell_lines(rt, lines, status);
    } else {
        tell_commands(rt, report, status);
    }
}

// Tells how full the journal of a run got.
fn tell_journal(rt: &HostRuntime, about: About, report: &Report) {
    let took = report.events.len();
    let events = Counted(about.events, "event");
    let _printed = eprintln!(rt; "jorazhil: the journal took {took} of {events}");
}

// Tells of a live run whether the node left at once for want of commands. One that took no command for want of memory had some.
fn tell_commands(rt: &HostRuntime, report: &Report, status: Status) {
    if !report.captures.is_empty() || status == Status::Memory {
        return;
    }
    let _told = if report.plays.is_empty() {
        eprintln!(rt;
            "jorazhil: the script had no at command, so the node left its session at once"
        )
    } else {
        eprintln!(rt;
            "jorazhil: the script had no at command, so the node left its session at once, while its blocks went on"
        )
    };
}

// Tells how many lines of its client a run took, and what a line is where the client left without one. Where the network, the talk or the
// memory failed, it may not have been heard to its end.
fn tell_lines(rt: &HostRuntime, took: usize, status: Status) {
    let most = Counted(MOST_LINES as u64, "line");
    let _printed = eprintln!(rt; "jorazhil: the run took {took} of at most {most} of its client");
    let left = !matches!(status, Status::Port | Status::Talk | Status::Memory);
    if took == 0 && left {
        let _told = eprintln!(rt;
            "jorazhil: the client left without a line; a line ends with a line feed"
        );
    }
}

// Tells the person who ran the program why it is not done, of the last read and the last write that failed. A reader of the output who left
// is no news.
fn tell(
    rt: &HostRuntime,
    status: Status,
    words: &[String],
    unread: Option<io::Error>,
    unwritten: Option<io::Error>,
) {
    match (status, unread, unwritten) {
        (Status::Done, _, _) => {}
        (Status::Words, _, _) => tell_usage(rt, status, usage(rt.alloc(), words)),
        (Status::Input, Some(error), _) => {
            let _printed = eprintln!(rt;
                "jorazhil: standard input could not be read: {error}; nothing was written"
            );
        }
        (Status::Sink, _, Some(error)) => tell_unwritten(rt, error),
        _ => {
            let _printed = eprintln!(rt; "jorazhil: {status}");
        }
    }
}

// Tells why the output could not be written, unless its reader left.
fn tell_unwritten(rt: &HostRuntime, error: io::Error) {
    if error.kind() != ErrorKind::BrokenPipe {
        let _printed = eprintln!(rt;
            "jorazhil: standard output could not be written: {error}; what was written is the front of the output"
        );
    }
}

// Tells of words that are no command, and the forms that are some.
fn tell_usage(rt: &HostRuntime, status: Status, told: Result<String, AllocError>) {
    let _printed = match told {
        Ok(text) => eprintln!(rt; "jorazhil: {text}"),
        Err(_) => eprintln!(rt; "jorazhil: {status}"),
    };
}

// The status where the words could not be had, which is told: no memory was left, or a word is no text, and so no word of a command.
fn tell_unreadable(rt: &HostRuntime, kind: ErrorKind) -> Status {
    if kind == ErrorKind::OutOfMemory {
        let status = Status::Memory;
        let _printed = eprintln!(rt; "jorazhil: {status}");
        return status;
    }
    tell_usage(rt, Status::Words, unreadable_usage(rt.alloc()));
    Status::Words
}

// The words after the program's name. The error is want of memory, or that one of them is no text. Std says of no
// environment what its arguments are, so no clause can say here which words come: checks/statuses.py runs it.
fn words_of(rt: &HostRuntime) -> io::Result<Vec<String>> {
    let args = env::args(&(BehindName { all: rt }, rt.alloc()))?;
    match args.collect::<Vec<String>>(rt.alloc()) {
        Ok(words) => Ok(words),
        Err(_) => Err(io::Error::from(ErrorKind::OutOfMemory)),
    }
}
