//! Runs by chance: what `replay` makes of a run's record is what the run told and sent.

ghost use Rattle.std.specs.Prelude.{◌<◌, ◌≤◌, length, All, IfOk};
ghost use Rattle.lk_base.specs.Ranges.{IsMoment};
ghost use Rattle.lk_outside.specs.Coming.{IsToCome};

use super::super::runs::{run, texts_over};
use super::peers::{coming, endpoint_of, fields_of, id_of};
use super::sides::{OWN, Sides, sides_over};
use asdp_messages::{write_alive, write_bye, write_ping_message, write_response};
use link_daemon::Status;
use link_live::Report;
use link_node::Sending;
use link_payload::PingFields;
use link_text::{LineBuf, write_sending};
use lk_base::{NodeId, Wire};
use lk_outside::{Arrival, ListPace, ListPort, Post};
use rand_core::utils::NextWord;
use rand_pcg::Lcg64Xsh32;
use std::alloc::{AllocError, Global};
use std::process::Abort;
use std::sync::Wait;
use std::test::Fail;
use std::thread::Threads;

const RUNS: u32 = 100;

/// The words of a run in the group 0.
const WORDS: &str = "live --record";

/// Another group, and the words of a run in it.
const GROUP: u16 = 41_153;

const GROUP_WORDS: &str = "live --group 41153 --record";

const HEAD: &str =
    "link 1\nsetup 500000 1\ngate 127.0.0.1:20808\nto 127.0.0.1:20809\nto 127.0.0.1:20810\n";

// How much there was in a run, or in all runs.
#[derive(Clone, Copy, Debug)]
struct Amounts {
    received: usize,
    posted: usize,
    published: usize,
    app_commits: usize,
    audio_commits: usize,
}

// In half of the runs all datagrams come before the first command.
fn are_enough(all: &Amounts) -> bool {
    all.received > 300
        && all.posted > 300
        && all.published > 300
        && all.app_commits > 300
        && all.audio_commits > 100
}

fn amounts_of(report: &Report, port: &ListPort) -> Amounts {
    Amounts {
        received: port.given().len(),
        posted: port.posts().len(),
        published: report.published.len(),
        app_commits: report.app_commits.len(),
        audio_commits: report.audio_commits.len(),
    }
}

fn sum_of(one: &Amounts, other: &Amounts) -> Amounts {
    Amounts {
        received: one.received.saturating_add(other.received),
        posted: one.posted.saturating_add(other.posted),
        published: one.published.saturating_add(other.published),
        app_commits: one.app_commits.saturating_add(other.app_commits),
        audio_commits: one.audio_commits.saturating_add(other.audio_commits),
    }
}

// rule: WerePublished, written_script_of, IsRecorded, WasSent, config_from, IsReplayable
#[test]
fn a_record_is_replayed_to_what_the_run_told(rt: HostRuntime) -> Result<(), Fail> {
    let mut random = Lcg64Xsh32::new(1, 2);
    let mut all = Amounts {
        received: 0,
        posted: 0,
        published: 0,
        app_commits: 0,
        audio_commits: 0,
    };
    for number in 0..RUNS {
        let group = if number % 4 < 2 { 0 } else { GROUP };
        let run = replayed_run(&rt, rt.alloc(), &mut random, group, number % 2 == 0)?;
        all = sum_of(&all, &run);
    }
    assert!(rt; are_enough(&all), "{all:?}");
    Ok(())
}

// Makes a run in a group with a record, whose commands are held until the port is closed or aren't, and replays that record.
fn replayed_run<R: Threads + Wait + Sync + Abort>(
    rt: &R,
    alloc: Global,
    random: &mut Lcg64Xsh32,
    group: u16,
    held: bool,
) -> Result<Amounts, AllocError> {
    let mut sides = drawn_sides(alloc, random)?;
    let port = drawn_port(alloc, random, group)?;
    let words = if group == 0 { WORDS } else { GROUP_WORDS };
    replayed_over(rt, alloc, words, &mut sides, port, held)
}

fn replayed_over<R: Threads + Wait + Sync + Abort>(
    rt: &R,
    alloc: Global,
    words: &str,
    sides: &mut Sides,
    port: ListPort,
    held: bool,
) -> Result<Amounts, AllocError> {
    let (status, port) = recorded_run(rt, alloc, words, sides, port, held)?;
    let replayed = is_replayed(rt, alloc, sides.out.bytes(), &sides.report, port.posts())?;
    assert!(rt; status == Status::Done && replayed);
    Ok(amounts_of(&sides.report, &port))
}

fn drawn_sides(alloc: Global, random: &mut Lcg64Xsh32) -> Result<Sides, AllocError> {
    let script = script_of(alloc, random)?;
    sides_over(alloc, &script, 10)
}

fn drawn_port(alloc: Global, random: &mut Lcg64Xsh32, group: u16) -> Result<ListPort, AllocError> {
    let arrivals = arrivals_of(alloc, random, group)?;
    ListPort::new(alloc, arrivals, 2_000, Vec::new(alloc))
}

fn recorded_run<R: Threads + Wait + Sync>(
    rt: &R,
    alloc: Global,
    words: &str,
    sides: &mut Sides,
    mut port: ListPort,
    held: bool,
) -> Result<(Status, ListPort), AllocError> {
    if held {
        return sides.run_held(rt, alloc, words, port);
    }
    let status = sides.run(rt, alloc, words, &mut port, &mut ListPace::new(0))?;
    Ok((status, port))
}

/// Whether a record begins with how much there was, and is replayed to these datagrams, as much and its last state.
pub fn is_replayed<R: Threads + Wait + Sync>(
    rt: &R,
    alloc: Global,
    record: &[u8],
    report: &Report,
    posts: &[Post],
) -> Result<bool, AllocError> {
    if !is_summed_up(alloc, record, report)? {
        return Ok(false);
    }
    let text = replay_of(rt, alloc, record)?;
    let done = done_of(alloc, report, posts.len())?;
    Ok(is_replay(&text, posts, done.as_bytes(), record))
}

fn is_summed_up(alloc: Global, record: &[u8], report: &Report) -> Result<bool, AllocError> {
    let summary = summary_of(alloc, report)?;
    Ok(record.starts_with(summary.as_bytes()))
}

// What `replay` writes of a record; nothing where it isn't done.
fn replay_of<R: Threads + Wait + Sync>(
    rt: &R,
    alloc: Global,
    record: &[u8],
) -> Result<Vec<u8>, AllocError> {
    let mut texts = texts_over(alloc, record, 4096, 0, 0)?;
    let status = run(rt, alloc, "replay", &mut texts.input, &mut texts.out)?;
    if status != Status::Done {
        return Ok(Vec::new(alloc));
    }
    Vec::from_slice(alloc, texts.out.bytes())
}

// The last line of a replay of as many events, states and datagrams.
fn done_of(alloc: Global, report: &Report, sends: usize) -> Result<String, AllocError> {
    let (events, states) = (report.events.len(), report.published.len());
    format!(in alloc; "done {events} {states} {sends}")
}

// How the summary of as many events and states begins.
fn summary_of(alloc: Global, report: &Report) -> Result<String, AllocError> {
    let (events, states) = (report.events.len(), report.published.len());
    format!(in alloc; "# live {events} {states} ")
}

// Whether a text is what comes of a record: it sends these datagrams, ends with this line, and its last state is that of the record.
fn is_replay(text: &[u8], posts: &[Post], done: &[u8], record: &[u8]) -> bool {
    let told = told_in(text, posts);
    let last = record.split(|b| *b == b'\n').nth(1).unwrap_or(b"");
    told.same_posts && told.done == done && last.get(2..).unwrap_or(b"") == told.state
}

// What a replay has told: whether it sent just these datagrams in this order, its last state and its last line.
#[derive(Drop)]
struct Told<'a> {
    same_posts: bool,
    state: &'a [u8],
    done: &'a [u8],
}

fn told_in<'a>(text: &'a [u8], posts: &[Post]) -> Told<'a> {
    let mut told = Told {
        same_posts: true,
        state: b"",
        done: b"",
    };
    let mut rest = posts.iter();
    for line in text.split(|b| *b == b'\n') {
        if line.starts_with(b"tx ") {
            told.same_posts = told.same_posts && tells(line, rest.next());
        } else if line.starts_with(b"state ") {
            told.state = line;
        } else if line.starts_with(b"done ") {
            told.done = line;
        }
    }
    told.same_posts = told.same_posts && rest.next().is_none();
    told
}

// Whether a line tells of that datagram: behind the moment stand its gate, its destination and its bytes.
fn tells(line: &[u8], post: Option<&Post>) -> bool {
    let Some(post) = post else {
        return false;
    };
    let mut bytes = Wire::new();
    let _room = bytes.try_extend_from_slice(&post.bytes);
    let sending = Sending {
        gate: post.gate,
        to: post.to,
        bytes,
    };
    let mut wanted = LineBuf::new();
    write_sending(&mut wanted, 0, &sending);
    let words = wanted.as_slice().strip_prefix(b"tx 0").unwrap_or(b"");
    let words = words.strip_suffix(b"\n").unwrap_or(b"");
    !words.is_empty() && line.ends_with(words)
}

// ---- what is drawn

fn below(random: &mut Lcg64Xsh32, n: u32) -> u32
    requires { 0 < n }
    ensures { result < n }
{
    random.next_word() % n
}

/// What the application does, and whether a number stands behind it.
const APP_ACTS: [(&str, bool); 7] = [
    ("force -", true),
    ("request ", true),
    ("play", false),
    ("stop", false),
    ("look", false),
    ("tempo ", true),
    ("quantum ", true),
];

/// What the audio thread does.
const AUDIO_ACTS: [(&str, bool); 4] = [
    ("play", false),
    ("stop", false),
    ("tempo ", true),
    ("quantum ", true),
];

// Twelve commands of the application and four of the audio thread.
fn script_of(alloc: Global, random: &mut Lcg64Xsh32) -> Result<Vec<u8>, AllocError> {
    let mut script = Vec::from_slice(alloc, HEAD.as_bytes())?;
    for _ in 0..12 {
        let at = below(random, 3_000_000);
        put_command(alloc, &mut script, "at", at, random, &APP_ACTS)?;
    }
    for _ in 0..4 {
        let block = below(random, 12) + 1;
        put_command(alloc, &mut script, "block", block, random, &AUDIO_ACTS)?;
    }
    Ok(script)
}

// Appends a command with one of these acts.
fn put_command(
    alloc: Global,
    script: &mut Vec<u8>,
    word: &str,
    at: u32,
    random: &mut Lcg64Xsh32,
    acts: &[(&str, bool)],
) -> Result<(), AllocError>
    requires { (0 < length acts.now) × (length acts.now ≤ 7) }
{
    let number = below(random, 2_000_000) + 100_000;
    let (act, has_number) = acts[below(random, acts.len() as u32) as usize];
    let line = if has_number {
        format!(in alloc; "{word} {at} {act}{number}\n")?
    } else {
        format!(in alloc; "{word} {at} {act}\n")?
    };
    script.extend_from_slice(line.as_bytes())
}

// Twenty arrivals of four peers, up to a tenth of a second after one another.
fn arrivals_of(
    alloc: Global,
    random: &mut Lcg64Xsh32,
    group: u16,
) -> Result<Vec<Arrival>, AllocError>
    ensures { IfOk result (λ arrivals. All IsToCome arrivals.items) }
{
    let mut arrivals = Vec::new(alloc);
    for place in 0..20u32 {
        let now = i64::from(100_000 * place + below(random, 100_000));
        arrivals.push(arrival_of(random, group, now))?;
    }
    Ok(arrivals)
}

fn arrival_of(random: &mut Lcg64Xsh32, group: u16, now: i64) -> Arrival
    requires { IsMoment now }
    ensures { IsToCome result }
{
    let kind = below(random, 8);
    if kind == 0 {
        return Arrival::Idle(now);
    }
    let peer = below(random, 4) as u16;
    let group = group_near(random, group);
    coming(peer, datagram_of(kind, peer, group, now), now)
}

// The group, or at times the next one.
fn group_near(random: &mut Lcg64Xsh32, group: u16) -> u16 {
    if below(random, 8) == 0 {
        group.wrapping_add(1)
    } else {
        group
    }
}

// Peers are in the node's own session or in that of the peer 0.
fn datagram_of(kind: u32, peer: u16, group: u16, now: i64) -> Wire {
    let own = fields_of(NodeId(*OWN), now, None);
    let other = fields_of(id_of(0), now, Some(endpoint_of(peer)));
    match kind {
        1 | 2 => write_alive(id_of(peer), group, &own),
        3 | 4 => write_alive(id_of(peer), group, &other),
        5 => write_response(id_of(peer), group, &other),
        6 => write_bye(id_of(peer), group),
        _ => write_ping_message(&PingFields {
            host: now,
            previous: None,
        }),
    }
}
