//! Four threads beside one another: the network thread, the audio thread and two applications.
ghost use Rattle.std.specs.Thread.{IsSync};

use super::bench::{Bench, Network, datagram};
use super::{OPENING, edit, shown_with};
use audio_handoff::StateCell;
use client_state::State;
use link_node::Event;
use link_shared::{AppPass, AudioPass, Capture, Ended, Got, Link, LinkName};
use std::alloc::Global;
use std::process::Abort;
use std::sync::Wait;
use std::thread;
use std::thread::Threads;

/// How many turns the network thread makes.
const TURNS: u16 = 20_000;

/// How often each other thread commits, where there is room, and then captures.
const ROUNDS: u16 = 8_000;

/// How many events the journal takes: more than there are commits, ticks and datagrams.
pub const EVENTS: u64 = 40_000;

/// The commits of each thread have the starts behind its own time.
const AUDIO: u16 = 40_000;

const ONE: u16 = 10_000;

const OTHER: u16 = 20_000;

/// What a thread captured.
#[derive(Clone, Copy)]
struct Seen {
    number: u64,
    state: State,
}

/// What a thread did: the number of each of its commits, in the order in which it made them; each capture; and whether each
/// showed the last commit just until it was taken.
#[derive(Drop)]
pub struct Report {
    numbers: Vec<u64>,
    seen: Vec<Seen>,
    right: bool,
}

/// A thread's last commit: the time of its start, and its number.
#[derive(Clone, Copy)]
struct Last {
    time: u16,
    number: u64,
}

impl Report {
    fn new(rt: &impl Abort, alloc: Global) -> Report {
        let numbers = Vec::with_capacity(alloc, ROUNDS as usize);
        let seen = Vec::with_capacity(alloc, ROUNDS as usize);
        Report {
            numbers: numbers.expect(rt, "memory for numbers"),
            seen: seen.expect(rt, "memory for states"),
            right: true,
        }
    }

    fn note_commit(&mut self, number: u64) {
        let Report { numbers, right, .. } = self;
        if numbers.push(number).is_err() {
            *right = false;
        }
    }

    /// Notes a capture whose state has taken so many of the commits that are counted as the thread's are.
    fn note_capture(&mut self, capture: &Capture, last: Last, taken: u64) {
        let Report { seen, right, .. } = self;
        let shown = if last.number > taken {
            shown_with(&capture.state, last.time)
        } else {
            capture.state
        };
        let one = Seen {
            number: capture.number,
            state: capture.state,
        };
        if capture.shown != shown || seen.push(one).is_err() {
            *right = false;
        }
    }
}

/// What the threads wrote.
#[derive(Drop)]
pub struct Reports {
    audio: Report,
    one: Report,
    other: Report,
}

impl Reports {
    pub fn new(rt: &impl Abort, alloc: Global) -> Reports {
        Reports {
            audio: Report::new(rt, alloc),
            one: Report::new(rt, alloc),
            other: Report::new(rt, alloc),
        }
    }
}

/// An application, whose commits have the starts behind `base`.
#[derive(Drop)]
struct Application<C: StateCell<11>, N: LinkName> {
    pass: AppPass<C, N>,
    alloc: Global,
    base: u16,
    report: Report,
}

impl<C: StateCell<11>, N: LinkName> Application<C, N> {
    fn play<R: Wait>(self, rt: &R, way: &C::Way, link: &Link<C, N>) -> Application<C, N> {
        let mut application = self;
        let mut last = Last {
            time: application.base,
            number: 0,
        };
        for _ in 0..ROUNDS {
            last = application.play_round(rt, way, link, last);
        }
        application
    }

    /// A commit, where there is room, and a capture. Answers the last commit.
    fn play_round<R: Wait>(
        &mut self,
        rt: &R,
        way: &C::Way,
        link: &Link<C, N>,
        before: Last,
    ) -> Last {
        let Application {
            pass,
            alloc,
            report,
            ..
        } = self;
        let time = before.time.saturating_add(1);
        let last = match link.commit(rt, pass, edit(time)) {
            Ok(number) => {
                report.note_commit(number);
                Last { time, number }
            }
            Err(_) => {
                thread::yield_now();
                before
            }
        };
        match link.capture(rt, *alloc, way, pass) {
            Ok(capture) => report.note_capture(&capture, last, capture.state.app),
            Err(_) => report.right = false,
        }
        last
    }
}

/// The audio thread.
#[derive(Drop)]
struct Player<C: StateCell<11>, N: LinkName> {
    pass: AudioPass<C, N>,
    report: Report,
}

impl<C: StateCell<11>, N: LinkName> Player<C, N> {
    fn play(self, way: &C::Way, link: &Link<C, N>) -> Player<C, N> {
        let mut player = self;
        for round in 0..ROUNDS {
            player.play_round(way, link, AUDIO + round + 1);
        }
        player
    }

    /// A commit and a capture.
    fn play_round(&mut self, way: &C::Way, link: &Link<C, N>, time: u16) {
        let Player { pass, report } = self;
        if link.audio_spent(pass) {
            return;
        }
        let number = link.commit_audio(way, pass, &edit(time));
        report.note_commit(number);
        let capture = link.capture_audio(way, pass);
        report.note_capture(&capture, Last { time, number }, capture.state.audio);
    }
}

/// All turns: ticks, datagrams, and turns with nothing.
fn turn_all<C: StateCell<11>, N: LinkName, R: Wait>(
    rt: &R,
    way: &C::Way,
    link: &Link<C, N>,
    mut network: Network<C, N>,
) -> Network<C, N> {
    for turn in 0..TURNS {
        let got = match turn % 4 {
            0 => Got::Tick,
            1 => datagram(),
            _ => Got::Nothing,
        };
        network.turn(rt, link, way, moment_of(turn), got);
    }
    network
}

/// How long after the opening a turn is.
fn moment_of(turn: u16) -> u32 {
    u32::from(turn).wrapping_mul(100)
}

// A function that joins threads names the types of a cell's tokens.
fn turn_beside_player<
    A: Drop + Send,
    B: Drop + Send,
    D: Drop + Send,
    W: Sync,
    C: StateCell<11, Way = W, Writer = A, Reader = B, Note = D> + Sync,
    N: LinkName + Send + Sync,
    R: Threads + Wait + Sync,
>(
    rt: &R,
    way: &W,
    link: &Link<C, N>,
    network: Network<C, N>,
    player: Player<C, N>,
) -> (Network<C, N>, Player<C, N>) {
    thread::join(
        rt,
        move ||
            requires { IsSync R.row }
        { turn_all::<C, N, R>(rt, way, link, network) },
        move || player.play(way, link),
    )
}

fn play_both<
    A: Drop + Send,
    B: Drop + Send,
    D: Drop + Send,
    W: Sync,
    C: StateCell<11, Way = W, Writer = A, Reader = B, Note = D> + Sync,
    N: LinkName + Send + Sync,
    R: Threads + Wait + Sync,
>(
    rt: &R,
    way: &W,
    link: &Link<C, N>,
    one: Application<C, N>,
    other: Application<C, N>,
) -> (Application<C, N>, Application<C, N>) {
    thread::join(
        rt,
        move ||
            requires { IsSync R.row }
        { one.play(rt, way, link) },
        move ||
            requires { IsSync R.row }
        { other.play(rt, way, link) },
    )
}

/// A link's threads.
#[derive(Drop)]
struct Sides<C: StateCell<11>, N: LinkName> {
    network: Network<C, N>,
    player: Player<C, N>,
    one: Application<C, N>,
    other: Application<C, N>,
}

fn run_four<
    A: Drop + Send,
    B: Drop + Send,
    D: Drop + Send,
    W: Sync,
    C: StateCell<11, Way = W, Writer = A, Reader = B, Note = D> + Sync,
    N: LinkName + Send + Sync,
    R: Threads + Wait + Sync,
>(rt: &R, way: &W, link: &Link<C, N>, sides: Sides<C, N>) -> Sides<C, N> {
    let Sides {
        network,
        player,
        one,
        other,
    } = sides;
    let ((network, player), (one, other)) = thread::join(
        rt,
        move ||
            requires { IsSync R.row }
        { turn_beside_player::<A, B, D, W, C, N, R>(rt, way, link, network, player) },
        move ||
            requires { IsSync R.row }
        { play_both::<A, B, D, W, C, N, R>(rt, way, link, one, other) },
    );
    Sides {
        network,
        player,
        one,
        other,
    }
}

/// The four threads run beside one another. Answers what is left of the link, and what they wrote.
pub fn run_threads<
    C: StateCell<11> + Sync,
    N: LinkName + Send + Sync,
    R: Threads + Wait + Sync + Abort,
>(rt: &R, alloc: Global, way: &C::Way, bench: Bench<C, N>, reports: Reports) -> (Ended, Reports)
where
    C::Way: Sync,
{
    let Bench {
        link,
        network,
        audio,
        first,
        second,
    } = bench;
    let sides = Sides {
        network,
        player: Player {
            pass: audio,
            report: reports.audio,
        },
        one: Application {
            pass: first,
            alloc,
            base: ONE,
            report: reports.one,
        },
        other: Application {
            pass: second,
            alloc,
            base: OTHER,
            report: reports.other,
        },
    };
    let sides = run_four(rt, way, &link, sides);
    end_threads(rt, way, link, sides)
}

fn end_threads<C: StateCell<11>, N: LinkName, R: Wait + Abort>(
    rt: &R,
    way: &C::Way,
    link: Link<C, N>,
    sides: Sides<C, N>,
) -> (Ended, Reports) {
    let Sides {
        network,
        player,
        one,
        other,
    } = sides;
    let Player {
        pass: audio,
        report: audio_report,
    } = player;
    let Application {
        pass: first,
        report: one_report,
        ..
    } = one;
    let Application {
        pass: second,
        report: other_report,
        ..
    } = other;
    let bench = Bench {
        link,
        network,
        audio,
        first,
        second,
    };
    let reports = Reports {
        audio: audio_report,
        one: one_report,
        other: other_report,
    };
    let (ended, _sent) = bench.end(rt, way, moment_of(TURNS), 2);
    (ended, reports)
}

/// Each capture is a state that was published, at its number; and numbers never fall.
fn check_seen(rt: &impl Abort, report: &Report, published: &[State]) {
    assert!(rt;
        report.right && report.seen.len() == ROUNDS as usize,
        "what was shown"
    );
    let mut newest = 0;
    for seen in report.seen.as_slice() {
        let number = seen.number;
        assert!(rt;
            number >= newest && is_at(seen, published),
            "{number} after {newest}"
        );
        newest = number;
    }
}

/// Whether the state that a thread captured is the published one of its number.
fn is_at(seen: &Seen, published: &[State]) -> bool {
    match published.get(seen.number as usize) {
        Some(state) => *state == seen.state,
        None => false,
    }
}

/// The commits of the applications, by the times of their starts, in the order of the journal.
fn taken_in(rt: &impl Abort, alloc: Global, events: &[Event]) -> Vec<i64> {
    let mut taken = Vec::new(alloc);
    for event in events {
        if let Event::App { commit, .. } = event {
            taken.push(commit.at).expect(rt, "memory for times");
        }
    }
    taken
}

/// The numbers of an application's commits rise, and under each the journal has that commit.
fn check_numbers(rt: &impl Abort, report: &Report, taken: &[i64], base: u16) {
    let mut last = 0;
    let mut at = i64::from(base);
    for number in report.numbers.as_slice() {
        at = at.saturating_add(1);
        let commit = taken.get(number.saturating_sub(1) as usize).copied();
        assert!(rt;
            *number > last && commit == Some(at),
            "{number} after {last}"
        );
        last = *number;
    }
}

/// The numbers of the audio commits in the journal rise, under each is the commit that was made so, and the last one is there.
fn check_audio(rt: &impl Abort, report: &Report, events: &[Event]) {
    let mut last = 0;
    for event in events {
        if let Event::Audio { number, commit, .. } = event {
            let right = commit.at == i64::from(AUDIO).saturating_add_unsigned(*number);
            assert!(rt; right && *number > last, "{number} after {last}");
            last = *number;
        }
    }
    assert!(rt; last == report.numbers.len() as u64);
}

/// What the threads did and saw fits the journal and the states published.
pub fn check_outcome(rt: &impl Abort, alloc: Global, ended: &Ended, reports: &Reports) {
    let Reports { audio, one, other } = reports;
    assert!(rt; !ended.full, "there was room");
    check_seen(rt, audio, &ended.published);
    check_seen(rt, one, &ended.published);
    check_seen(rt, other, &ended.published);
    check_audio(rt, audio, &ended.events);
    let taken = taken_in(rt, alloc, &ended.events);
    check_taken(rt, one, other, &taken);
}

/// The journal has as many commits of applications as they made.
fn check_taken(rt: &impl Abort, one: &Report, other: &Report, taken: &[i64]) {
    let made = (one.numbers.len() as u64).saturating_add(other.numbers.len() as u64);
    assert_eq!(rt; taken.len() as u64, made);
    check_numbers(rt, one, taken, ONE);
    check_numbers(rt, other, taken, OTHER);
}
