//! Runs of one thread, worked out by hand.
ghost use Rattle.std.specs.Prelude.{◌≤◌};
ghost use Rattle.link_shared.specs.Hub.{IsOnGate};

use super::bench::{Bench, Network, datagram};
use super::{edit, shown_with, state_of};
use arrayvec::ArrayVec;
use audio_handoff::StateCell;
use link_node::Event;
use link_shared::{AppPass, AudioPass, Capture, Ended, Got, Link, LinkName};
use std::alloc::Global;
use std::process::Abort;
use std::sync::Wait;

/// Each begins with how many events its journal takes. Each small letter is a step, and its answer stands behind it. All
/// steps are at the opening moment.
///
/// a, b: a commit by the first or the second application's pass, and its number. c: one of the audio thread, and its number.
/// q: a quit. n, d, t, e: a turn with nothing, with a datagram that means nothing, with a tick, or with the end. Its answer is what it
/// took: X or Y for a commit by a pass and which of its commits, U for one of the audio thread, R for the datagram, T for the tick, E
/// for the end; then Q for a quit, F where something found no room, and behind > how many datagrams it sends; - for nothing at all.
///
/// k, l, m: a capture by the first or the second pass or by the audio thread, the state's number, how many commits of
/// applications it has taken, the number of the last audio commit taken, the commit that its quantum is of, as in a turn's
/// answer, or O0 for the opening, and which own commit is shown over it. The third commit of a thread is of a quantum alone.
///
/// z: the last turn, how many of the two passes are handed in to it, the first before the second, what it took, as a turn, and behind =
/// how many states were published.
pub const RUNS: &[&str] = &[
    "9k000O0.l000O0.m000O0.z2E>1=1",
    "9a1k000O01z2X1E>1=2",
    "9a1nX1k110X1.z2E>1=2",
    "9c1m000O01z2U1E>1=2",
    "9c1nU1m101U1.z2E>1=2",
    "9c1c2m000O02nU2m102U2.z2E>1=2",
    "9a1c1nX1U1k211U1.m211U1.z2E>1=3",
    "9a1b2nX1k110X1.l110X11nY1l220Y1.z2E>1=3",
    "9a1b2k000O01nX1l110X11nY1k220Y1.z2E>1=3",
    "9tT>1tTz2E>1=1",
    "9dRdRz2E>1=1",
    "9n-n-z2E>1=1",
    "9q.nQn-z2E>1=1",
    "9a1q.nX1nQn-z2E>1=2",
    "9q.a1nQnX1z2E>1=2",
    "9a1tX1T>1z2E>1=2",
    "9c1dU1Rz2E>1=2",
    "9a1c1tX1U1T>1z2E>1=3",
    "9a1a2a3nX1nX2k220X23nX3k330X3.z2E>1=4",
    "9a1b2a3b4z2X1Y1X2Y2E>1=5",
    "9c1c2c3z2U3E>1=2",
    "9c1nU1c2m101U12nU2m202U2.z2E>1=3",
    "9a1c1z2U1X1E>1=3",
    "9a1c1k000O01m000O01z2U1X1E>1=3",
    "1tT>1a1nFk000O01z2F=1",
    "1a1nX1k110X1.z2F=2",
    "1a1c1nX1Fz2F=2",
    "2a1c1nX1U1z2F=3",
    "2a1b2nX1nY1z2F=3",
    "2a1b2a3nX1nY1nFk220Y12l220Y1.z2F=3",
    "3c1nU1c2nU2c3nU3c4nFm303U34z2F=4",
    "9b1l000O01nY1l110Y1.k110Y1.z2E>1=2",
    "9a1k000O01b2l000O01k000O01z2X1Y1E>1=3",
    "9q.q.nQnQn-z2E>1=1",
    "9q.z2E>1=1",
    "9a1q.b2z2X1Y1E>1=3",
    "9tT>1a1tX1Tz2E>1=2",
    "9dRa1dX1Rc1dU1Rm211U1.z2E>1=3",
    "9c1nU1n-z2E>1=2",
    "9a1nX1c1nU1a2nX2k321X2.c2nU2k422U2.m422U2.z2E>1=5",
    "4a1a2c1tX1U1T>1nX2z2F=4",
    "9z0E>1=1",
    "9a1z0X1E>1=2",
    "9a1b2z0X1Y1E>1=3",
    "9a1a2nX1c1q.z0U1X2E>1=4",
    "2a1b2z0X1Y1F=3",
    "9b1z1Y1E>1=2",
    "9a1b2z1X1Y1E>1=3",
    "9a1b2b3nX1nY1z1Y2E>1=4",
    "9a1c1eX1U1E>1m211U1.eE>1z2E>1=3",
    "9a1b2eX1E>1eY1E>1tT>1z2E>1=3",
    "9q.eEQ>1n-z2E>1=1",
    "9a1q.c1eX1U1E>1eEQ>1z2E>1=3",
    "2a1c1q.eX1U1FeQFk211U1.z2F=3",
    "3a1b2c1q.eX1U1E>1eFnQl211U11z2F=3",
];

/// An answer.
type Text = ArrayVec<u8, 24>;

/// The commit that each thread made last: those of the first pass are from 101 on, those of the second from 201 on, and those of the
/// audio thread from 301 on.
#[derive(Clone, Copy)]
struct Lasts {
    first: u16,
    second: u16,
    audio: u16,
}

/// How many events the journal of the run takes.
pub fn events_of(run: &str) -> u64
    ensures { (1 ≤ result) × (result ≤ 9) }
{
    match run.as_bytes().first() {
        Some(b'1') => 1,
        Some(b'2') => 2,
        Some(b'3') => 3,
        Some(b'4') => 4,
        _ => 9,
    }
}

/// The steps of a run before its last turn, and what stands behind its sign.
fn parts_of(run: &str) -> (&str, &str) {
    run.split_once('z').unwrap_or((run, ""))
}

/// How many passes are handed in to the last turn.
fn passes_in(ending: &str) -> u8 {
    match ending.as_bytes().first() {
        Some(b'0') => 0,
        Some(b'1') => 1,
        _ => 2,
    }
}

fn put(text: &mut Text, byte: u8) {
    let _room = text.try_push(byte);
}

fn put_digit(text: &mut Text, n: u64) {
    put(text, if n < 10 { b'0' + n as u8 } else { b'*' });
}

fn digit(n: u64) -> Text {
    let mut text = Text::new();
    put_digit(&mut text, n);
    text
}

fn put_taken(text: &mut Text, event: &Event) {
    match event {
        Event::Rx { .. } => put(text, b'R'),
        Event::Tick { .. } => put(text, b'T'),
        Event::App { commit, .. } => put_commit(text, commit.at),
        Event::Audio { number, commit, .. } => put_audio(text, *number, commit.at),
        Event::End { .. } => put(text, b'E'),
    }
}

fn put_audio(text: &mut Text, number: u64, at: i64) {
    put_commit(text, at);
    if which(at) != number {
        put(text, b'*');
    }
}

/// Whose commit was made at that time, and which of them.
fn put_commit(text: &mut Text, at: i64) {
    put(text, whose(at));
    put_digit(text, which(at));
}

fn whose(at: i64) -> u8 {
    if at < 200 {
        b'X'
    } else if at < 300 {
        b'Y'
    } else if at < 400 {
        b'U'
    } else {
        b'O'
    }
}

/// Which of the commits of its thread it is.
fn which(at: i64) -> u64 {
    if at < 0 { 10 } else { at.unsigned_abs() % 100 }
}

/// What stands in the journal behind so many events, and how many datagrams are sent.
fn put_news(text: &mut Text, events: &[Event], before: usize, quit: bool, full: bool, sent: usize) {
    let mut at = 0u64;
    for event in events {
        if at >= before as u64 {
            put_taken(text, event);
        }
        at = at.saturating_add(1);
    }
    if quit {
        put(text, b'Q');
    }
    if full {
        put(text, b'F');
    }
    if sent > 0 {
        put(text, b'>');
        put_digit(text, sent as u64);
    }
}

/// The own commit that is shown over a state, by the time of the last one: a point for none, and * where a state is as none can be.
fn put_shown(text: &mut Text, capture: &Capture, last: u16) {
    let Capture { state, shown, .. } = capture;
    if *state != state_of(state.app, state.audio, state.start, state.quantum) {
        put(text, b'*');
    } else if shown == state {
        put(text, b'.');
    } else if *shown == shown_with(state, last) {
        put_digit(text, u64::from(last % 100));
    } else {
        put(text, b'*');
    }
}

/// The answer to a capture by a pass that made that commit last.
fn capture_text(capture: &Capture, last: u16) -> Text {
    let mut text = Text::new();
    put_digit(&mut text, capture.number);
    put_digit(&mut text, capture.state.app);
    put_digit(&mut text, capture.state.audio);
    put_commit(&mut text, capture.state.quantum);
    put_shown(&mut text, capture, last);
    text
}

fn commit<C: StateCell<11>, N: LinkName, R: Wait>(
    rt: &R,
    link: &Link<C, N>,
    pass: &mut AppPass<C, N>,
    last: &mut u16,
) -> Text {
    *last = last.saturating_add(1);
    match link.commit(rt, pass, edit(*last)) {
        Ok(number) => digit(number),
        Err(_) => digit(10),
    }
}

/// Where memory is wanting the answer is that of no run.
fn capture<C: StateCell<11>, N: LinkName, R: Wait>(
    rt: &R,
    alloc: Global,
    way: &C::Way,
    link: &Link<C, N>,
    pass: &mut AppPass<C, N>,
    last: u16,
) -> Text {
    match link.capture(rt, alloc, way, pass) {
        Ok(capture) => capture_text(&capture, last),
        Err(_) => Text::new(),
    }
}

fn commit_audio<C: StateCell<11>, N: LinkName>(
    way: &C::Way,
    link: &Link<C, N>,
    pass: &mut AudioPass<C, N>,
    last: &mut u16,
) -> Text {
    *last = last.saturating_add(1);
    if link.audio_spent(pass) {
        return digit(10);
    }
    digit(link.commit_audio(way, pass, &edit(*last)))
}

fn quit<C: StateCell<11>, N: LinkName, R: Wait>(rt: &R, link: &Link<C, N>) -> Text {
    let mut text = Text::new();
    put(&mut text, if link.quit(rt).is_ok() { b'.' } else { b'*' });
    text
}

fn turn<C: StateCell<11>, N: LinkName, R: Wait>(
    rt: &R,
    link: &Link<C, N>,
    way: &C::Way,
    network: &mut Network<C, N>,
    got: Got,
) -> Text
    requires { IsOnGate 1 got }
{
    let before = network.hub.journal().len();
    let turned = network.turn(rt, link, way, 0, got);
    let mut text = Text::new();
    let sent = network.sends.list().len();
    put_news(
        &mut text,
        network.hub.journal(),
        before,
        turned.quit,
        turned.full,
        sent,
    );
    if text.is_empty() {
        put(&mut text, b'-');
    }
    text
}

/// A step of whichever thread takes it.
fn take_step<C: StateCell<11>, N: LinkName, R: Wait>(
    rt: &R,
    alloc: Global,
    way: &C::Way,
    bench: &mut Bench<C, N>,
    lasts: &mut Lasts,
    step: u8,
) -> Text {
    let Bench {
        link,
        network,
        audio,
        first,
        second,
    } = bench;
    match step {
        b'a' | b'k' => app_step(rt, alloc, way, link, first, &mut lasts.first, step == b'a'),
        b'b' | b'l' => app_step(
            rt,
            alloc,
            way,
            link,
            second,
            &mut lasts.second,
            step == b'b',
        ),
        b'c' => commit_audio(way, link, audio, &mut lasts.audio),
        b'm' => capture_text(&link.capture_audio(way, audio), lasts.audio),
        b'q' => quit(rt, link),
        _ => turn(rt, link, way, network, got_of(step)),
    }
}

/// A commit by a pass, or a capture.
fn app_step<C: StateCell<11>, N: LinkName, R: Wait>(
    rt: &R,
    alloc: Global,
    way: &C::Way,
    link: &Link<C, N>,
    pass: &mut AppPass<C, N>,
    last: &mut u16,
    commits: bool,
) -> Text {
    if commits {
        commit(rt, link, pass, last)
    } else {
        capture(rt, alloc, way, link, pass, *last)
    }
}

/// What comes to the turn of a step.
fn got_of(step: u8) -> Got
    ensures { IsOnGate 1 result }
{
    match step {
        b'n' => Got::Nothing,
        b'd' => datagram(),
        b'e' => Got::End,
        _ => Got::Tick,
    }
}

/// Takes the steps of a run before the last turn, and compares each answer.
pub fn play_run<C: StateCell<11>, N: LinkName, R: Wait + Abort>(
    rt: &R,
    alloc: Global,
    way: &C::Way,
    bench: &mut Bench<C, N>,
    run: &str,
) {
    let (steps, _ending) = parts_of(run);
    let mut lasts = Lasts {
        first: 100,
        second: 200,
        audio: 300,
    };
    let mut answer = digit(events_of(run));
    let mut at = 0u64;
    for byte in steps.bytes() {
        if b"abcqndteklm".contains(&byte) {
            expect_answer(rt, &answer, at, None, run);
            answer = take_step(rt, alloc, way, bench, &mut lasts, byte);
            at = 0;
        } else {
            expect_answer(rt, &answer, at, Some(byte), run);
            at = at.saturating_add(1);
        }
    }
    expect_answer(rt, &answer, at, None, run);
}

/// Fails where an answer hasn't that byte at a place, or with none where it goes on there.
fn expect_answer(rt: &impl Abort, answer: &Text, at: u64, byte: Option<u8>, run: &str) {
    let answered = answer.as_slice().get(at as usize).copied();
    assert!(rt; answered == byte, "at {at} of an answer in {run}");
}

/// The last turn of a run, whose answer stands behind its sign.
pub fn end_run<C: StateCell<11>, N: LinkName, R: Wait + Abort>(
    rt: &R,
    way: &C::Way,
    bench: Bench<C, N>,
    run: &str,
) {
    let before = bench.network.hub.journal().len();
    let (_steps, ending) = parts_of(run);
    let (ended, sent) = bench.end(rt, way, 0, passes_in(ending));
    expect_ending(rt, &ended, before, sent, run);
}

/// Fails where the last turn didn't come to what stands behind the sign of its run.
fn expect_ending(rt: &impl Abort, ended: &Ended, before: usize, sent: usize, run: &str) {
    let (_steps, ending) = parts_of(run);
    let text = ending_text(ended, before, sent, passes_in(ending));
    assert!(rt; text.as_slice() == ending.as_bytes(), "at the end of {run}");
}

fn ending_text(ended: &Ended, before: usize, sent: usize, passes: u8) -> Text {
    let mut text = digit(u64::from(passes));
    put_news(&mut text, &ended.events, before, false, ended.full, sent);
    put(&mut text, b'=');
    put_digit(&mut text, ended.published.len() as u64);
    text
}
