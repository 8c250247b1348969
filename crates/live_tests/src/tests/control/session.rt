//! A session of one client, over a link whose hub makes no turn beside it.

ghost use Rattle.std.specs.Prelude.{◌≡◌, ◌≤◌, [], length, vec_capacity, IsSome};
ghost use Rattle.lk_outside.specs.ListTalk.{opened_of};
ghost use Rattle.link_shared.specs.Hub.{IsOnGate};
ghost use Rattle.link_live.specs.NodeRun.{ArePartsOf};

use super::node::{HERE, config};
use link_control::{Served, SessionLog, serve};
use link_node::Sends;
use link_shared::{Got, Link, LinkName, Opened, Parts};
use lk_base::{Gate, MOMENT_MAX, Wire};
use lk_outside::{Bound, ListPace, ListTalk, SAY, Talk};
use std::alloc::Global;
use std::marker::Brand;
use std::process::Abort;
use std::sync::Wait;
use triple_buffer::Triple;

/// What is given to a session.
#[derive(Clone, Copy)]
pub struct Given<'a> {
    /// What the client sends.
    pub sent: &'a [u8],
    /// How many bytes a read gives at most, and how many the talk has room for.
    pub most: usize,
    pub room: usize,
    /// The call of the talk that fails: the k-th of a kind.
    pub failing: (u8, u64),
    /// How late the pace answers, in microseconds.
    pub late: i64,
    /// A datagram that the hub takes before, if it has bytes.
    pub heard: &'a [u8],
}

/// What is usual: a client that sends nothing, and no call that fails.
pub const USUAL: Given = Given {
    sent: b"",
    most: 512,
    room: 100_000,
    failing: (SAY, 0),
    late: 0,
    heard: b"",
};

/// What comes of a session.
#[derive(Drop)]
pub struct Session {
    pub end: Served,
    pub talk: ListTalk,
    pub log: SessionLog,
}

/// Puts bytes behind others.
pub fn append(rt: &impl Abort, bytes: &mut Vec<u8>, more: &[u8]) {
    bytes.extend_from_slice(more).expect(rt, "memory for bytes");
}

/// A session over a link that is opened at 0.
pub fn served<R: Wait + Abort>(rt: &R, alloc: Global, given: &Given) -> Session {
    let mut talk = talk_of(rt, alloc, given.sent, given.most, given.room, given.failing);
    open(rt, &mut talk);
    let mut pace = ListPace::new(given.late.clamp(0, MOMENT_MAX));
    let mut log = SessionLog::new(alloc).expect(rt, "memory for a log");
    let mut sends = Sends::new(alloc).expect(rt, "memory for what is sent");
    let heard = got_of(given.heard);
    let parts = Parts::<Triple<11>>::new(rt, alloc, &(), &config(), 0, 300);
    let parts = parts.expect(rt, "memory for a link");
    let end = served_over::<Brand, R>(
        rt, alloc, parts, heard, &mut sends, &mut talk, &mut pace, &mut log,
    );
    Session { end, talk, log }
}

/// A talk that isn't opened, with room for so many bytes, of which this call fails. A read gives so many bytes at most.
pub fn talk_of(
    rt: &impl Abort,
    alloc: Global,
    sent: &[u8],
    most: usize,
    room: usize,
    failing: (u8, u64),
) -> ListTalk {
    let failing = vec![in alloc; failing].expect(rt, "memory for a call");
    let sent = sent.to_vec(alloc).expect(rt, "memory for bytes");
    let talk = ListTalk::new(alloc, sent, most.max(1), room, failing);
    talk.expect(rt, "memory for a talk")
}

pub fn open(rt: &impl Abort, talk: &mut ListTalk)
    ensures { IsSome (opened_of talk.new) }
{
    assert!(rt; talk.listen(HERE) == Bound::Ready);
}

// The datagram of these bytes, if there are any.
fn got_of(bytes: &[u8]) -> Got
    ensures { IsOnGate 1 result }
{
    if bytes.is_empty() {
        return Got::Nothing;
    }
    let mut wire = Wire::new();
    let _room = wire.try_extend_from_slice(bytes);
    Got::Datagram {
        gate: Gate(0),
        from: HERE,
        bytes: wire,
    }
}

fn served_over<N: LinkName, R: Wait>(
    rt: &R,
    alloc: Global,
    parts: Parts<Triple<11>>,
    heard: Got,
    sends: &mut Sends,
    talk: &mut ListTalk,
    pace: &mut ListPace,
    log: &mut SessionLog,
) -> Served
    requires link { ArePartsOf N.app_states N.audio_states N.audio_commits N.queue N.name N.parts N.whole parts }
    requires gate { (length parts.config.gates ≡ 1) × IsOnGate 1 heard }
    requires opened { IsSome (opened_of talk.old) }
    requires log { (log.old.lines.items ≡ []) × (4_096 ≤ vec_capacity log.old.lines) }
{
    let mut opened = Link::<Triple<11>, N>::make(parts);
    let Opened { link, hub, app, .. } = &mut opened;
    let _turned = hub.turn(rt, link, &(), 0, heard, sends);
    serve(rt, alloc, link, &(), app, talk, pace, log)
}
