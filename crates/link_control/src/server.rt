//! Serving one client: each line is captured for, committed where it changes something, logged and answered.

ghost use Rattle.std.specs.Prelude.{◌≡◌, ◌≤◌, ◌<◌, ◌∷◌, ◌++◌, [], IfOk, IfSome, IsSome, OnErr, option_map, vec_capacity, vec_len};
ghost use Rattle.client_state.specs.State.{IsTidyState};
ghost use Rattle.lk_base.specs.Ranges.{IsMoment};
ghost use Rattle.link_text.specs.ControlLine.{IsControlLine};
ghost use Rattle.link_script.specs.LiveScript.{IsAct};
ghost use Rattle.link_live.specs.Clients.{commit_of_act};
ghost use Rattle.link_control.specs.Log.{act_asked};
ghost use Rattle.link_control.specs.Serving.{HasServed};
ghost use Rattle.link_control.specs.ServingNow.{HasMade, IsDone, TakesBytes, number_of};

use crate::answer::{put_answer, say};
use crate::line::{LineHead, asked_in, keep};
use crate::log::{LineLog, MOST_LINES, SessionLog};
use audio_handoff::StateCell;
use client_state::Commit;
use link_live::{commit_of, hand_over};
use link_script::Act;
use link_shared::{AppPass, Capture, Link, LinkName};
use link_text::{ControlLine, LineBuf};
use lk_outside::{Pace, Taken, Talk};
use std::alloc::{AllocError, Global};
use std::sync::Wait;

/// The most bytes that a read is asked for.
const PIECE: usize = 512;

/// How serving a client has ended.
#[derive(Clone, Copy, Debug, PartialEq, Eq)]
pub enum Served {
    /// The client sends nothing more, and each whole line was answered.
    Ended,
    /// A call of the talk failed.
    Failed,
    /// The client sent a line more than the 4,096 that are answered.
    Lines,
    /// Memory was wanting for a capture.
    Memory(AllocError),
}

// What is kept from one byte of the client to the next, beside the log.
#[derive(Drop)]
struct Kept {
    // The line that is being read.
    line: LineHead,
    // The moment that the pace answered last, 0 at first.
    last: i64,
    // Room for the text of an answer.
    answer: LineBuf,
}

/// Answers the client's lines in order, at most 4,096 of them. For each it asks the pace for a moment, for 0 at first and then for the one
/// that it answered last; captures; hands over the commit of `tempo`, `play` and `stop`, which the line makes of the state that is shown,
/// as soon as the queue has room; logs that, and writes the answer. A rest without a line feed is dropped at the end.
///
/// Waits: in the talk and the pace, for the desk, by the way, and for room in the queue. Memory: two notes for each capture.
pub fn serve<C: StateCell<11>, N: LinkName, L: Talk, T: Pace, R: Wait>(
    rt: &R,
    alloc: Global,
    link: &Link<C, N>,
    way: &C::Way,
    pass: &mut AppPass<C, N>,
    talk: &mut L,
    pace: &mut T,
    log: &mut SessionLog,
) -> Served
    requires opened { IsSome (L.seen talk.old).opened }
    requires empty { log.old.lines.items ≡ [] }
    requires room { 4_096 ≤ vec_capacity log.old.lines }
    ensures served { HasServed (T.late pace.old) (L.seen talk.old)
        (L.seen talk.new) pass.old pass.new log.new.lines.items result }
{
    let mut piece = [0u8; PIECE];
    let mut kept = Kept {
        line: LineHead::new(),
        last: 0,
        answer: LineBuf::new(),
    };
    for _ in rt.forever() {
        match talk.read(&mut piece) {
            Taken::Got(count) => {
                let bytes = &piece[..count];
                if let Some(end) = take_bytes(
                    rt, alloc, link, way, pass, talk, pace, log, &mut kept, bytes,
                ) {
                    return end;
                }
            }
            Taken::End => return Served::Ended,
            Taken::Failed => return Served::Failed,
        }
    }
    unreachable!()
}

// Takes bytes of the client in order. Answers how serving has ended, if it did. Waits and memory: as in `serve`.
fn take_bytes<C: StateCell<11>, N: LinkName, L: Talk, T: Pace, R: Wait>(
    rt: &R,
    alloc: Global,
    link: &Link<C, N>,
    way: &C::Way,
    pass: &mut AppPass<C, N>,
    talk: &mut L,
    pace: &mut T,
    log: &mut SessionLog,
    kept: &mut Kept,
    bytes: &[u8],
) -> Option<Served>
    requires opened { IsSome (L.seen talk.old).opened }
    requires room { 4_096 ≤ vec_capacity log.old.lines }
    requires moment { IsMoment kept.old.last }
    ensures taken { TakesBytes (T.late pace.old) (L.seen talk.old)
        (L.seen talk.new) pass.old pass.new log.old.lines.items log.new.lines.items kept.old kept.new
        bytes.now result }
    ensures left { (L.seen talk.new).left ≡ (L.seen talk.old).left }
    ensures opened { (L.seen talk.new).opened ≡ (L.seen talk.old).opened }
    ensures late { T.late pace.new ≡ T.late pace.old }
    ensures room { vec_capacity log.new.lines ≡ vec_capacity log.old.lines }
    ensures moment { IsMoment kept.new.last }
{
    for byte in bytes {
        if let Some(end) = take_byte(rt, alloc, link, way, pass, talk, pace, log, kept, *byte) {
            return Some(end);
        }
    }
    None
}

// Takes a byte of the client: a line feed ends a line. Answers how serving has ended, if it did. Waits and memory: as in `serve`.
fn take_byte<C: StateCell<11>, N: LinkName, L: Talk, T: Pace, R: Wait>(
    rt: &R,
    alloc: Global,
    link: &Link<C, N>,
    way: &C::Way,
    pass: &mut AppPass<C, N>,
    talk: &mut L,
    pace: &mut T,
    log: &mut SessionLog,
    kept: &mut Kept,
    byte: u8,
) -> Option<Served>
    requires opened { IsSome (L.seen talk.old).opened }
    requires room { 4_096 ≤ vec_capacity log.old.lines }
    requires moment { IsMoment kept.old.last }
    ensures taken { TakesBytes (T.late pace.old) (L.seen talk.old)
        (L.seen talk.new) pass.old pass.new log.old.lines.items log.new.lines.items kept.old kept.new
        (byte ∷ []) result }
    ensures left { (L.seen talk.new).left ≡ (L.seen talk.old).left }
    ensures opened { (L.seen talk.new).opened ≡ (L.seen talk.old).opened }
    ensures late { T.late pace.new ≡ T.late pace.old }
    ensures room { vec_capacity log.new.lines ≡ vec_capacity log.old.lines }
    ensures moment { IsMoment kept.new.last }
{
    if byte != b'\n' {
        keep(&mut kept.line, byte);
        return None;
    }
    answer_line(rt, alloc, link, way, pass, talk, pace, log, kept)
}

// Answers the line that was read, behind its line feed, unless it is one too many. Answers how serving has ended, if it did.
// Waits and memory: as in `serve`.
fn answer_line<C: StateCell<11>, N: LinkName, L: Talk, T: Pace, R: Wait>(
    rt: &R,
    alloc: Global,
    link: &Link<C, N>,
    way: &C::Way,
    pass: &mut AppPass<C, N>,
    talk: &mut L,
    pace: &mut T,
    log: &mut SessionLog,
    kept: &mut Kept,
) -> Option<Served>
    requires opened { IsSome (L.seen talk.old).opened }
    requires room { 4_096 ≤ vec_capacity log.old.lines }
    requires moment { IsMoment kept.old.last }
    ensures taken { TakesBytes (T.late pace.old) (L.seen talk.old)
        (L.seen talk.new) pass.old pass.new log.old.lines.items log.new.lines.items kept.old kept.new
        (10 ∷ []) result }
    ensures left { (L.seen talk.new).left ≡ (L.seen talk.old).left }
    ensures opened { (L.seen talk.new).opened ≡ (L.seen talk.old).opened }
    ensures late { T.late pace.new ≡ T.late pace.old }
    ensures room { vec_capacity log.new.lines ≡ vec_capacity log.old.lines }
    ensures moment { IsMoment kept.new.last }
{
    if log.lines.len() >= MOST_LINES {
        return Some(Served::Lines);
    }
    let asked = asked_in(&kept.line);
    kept.line.clear();
    let entry = match log_line(rt, alloc, link, way, pass, pace, log, kept.last, asked) {
        Ok(entry) => entry,
        Err(error) => return Some(Served::Memory(error)),
    };
    kept.last = entry.moment;
    let number = number_in(entry.commit);
    put_answer(&mut kept.answer, asked, number, &entry.capture.shown);
    if !say(talk, &kept.answer) {
        return Some(Served::Failed);
    }
    None
}

// Waits until a moment, captures, commits what a line asks for, and logs that. Answers what is logged.
// Waits: in the pace, for the desk, by the way, and for room in the queue. Memory: two notes.
fn log_line<C: StateCell<11>, N: LinkName, T: Pace, R: Wait>(
    rt: &R,
    alloc: Global,
    link: &Link<C, N>,
    way: &C::Way,
    pass: &mut AppPass<C, N>,
    pace: &mut T,
    log: &mut SessionLog,
    last: i64,
    asked: Option<ControlLine>,
) -> Result<LineLog, AllocError>
    requires range { IfSome asked IsControlLine }
    requires moment { IsMoment last }
    requires room { vec_len log.old.lines < vec_capacity log.old.lines }
    ensures done { IfOk result (λ entry. IsDone (T.late pace.old) last pass.old pass.new asked entry) }
    ensures log { IfOk result (λ entry. log.new.lines.items ≡ log.old.lines.items ++ entry ∷ []) }
    ensures moment { IfOk result (λ entry. IsMoment entry.moment) }
    ensures tidy { IfOk result (λ entry. IsTidyState entry.capture.state × IsTidyState entry.capture.shown) }
    ensures refused_pass { OnErr result (pass.new ≡ pass.old) }
    ensures refused_log { OnErr result (log.new.lines.items ≡ log.old.lines.items) }
    ensures late { T.late pace.new ≡ T.late pace.old }
    ensures capacity { vec_capacity log.new.lines ≡ vec_capacity log.old.lines }
{
    let moment = pace.until(last);
    let capture = link.capture(rt, alloc, way, pass)?;
    let commit = commit_asked(rt, link, pass, asked, moment, &capture);
    let entry = LineLog {
        moment,
        capture,
        commit,
    };
    log.lines.push_reserved(entry);
    Ok(entry)
}

// Commits what a line asks for, if it changes something, at a moment. Answers the commit behind its number.
// Waits: for the desk, and for room in the queue. Memory: none.
fn commit_asked<C: StateCell<11>, N: LinkName, R: Wait>(
    rt: &R,
    link: &Link<C, N>,
    pass: &mut AppPass<C, N>,
    asked: Option<ControlLine>,
    at: i64,
    capture: &Capture,
) -> Option<(u64, Commit)>
    requires range { IfSome asked IsControlLine }
    requires moment { IsMoment at }
    requires tidy { IsTidyState capture.now.shown }
    ensures made { HasMade pass.old pass.new result }
    ensures value { result ≡ option_map (λ act. (number_of result, commit_of_act act at capture.now)) (act_asked asked) }
{
    let Some(act) = act_in(asked) else {
        return None;
    };
    let commit = commit_of(act, at, capture);
    let number = hand_over(rt, link, pass, commit);
    Some((number, commit))
}

// What a line does to the state, if it does anything.
fn act_in(asked: Option<ControlLine>) -> Option<Act>
    requires range { IfSome asked IsControlLine }
    ensures value { result ≡ act_asked asked }
    ensures range { IfSome result IsAct }
{
    let Some(asked) = asked else {
        return None;
    };
    match asked {
        ControlLine::Tempo(mpb) => Some(Act::Tempo(mpb)),
        ControlLine::Play => Some(Act::Play),
        ControlLine::Stop => Some(Act::Stop),
        ControlLine::Status | ControlLine::Beat(_) | ControlLine::Time(_) => None,
    }
}

// The number of a commit, 0 for none.
fn number_in(commit: Option<(u64, Commit)>) -> u64
    ensures { result ≡ number_of commit }
{
    match commit {
        Some((number, _)) => number,
        None => 0,
    }
}
