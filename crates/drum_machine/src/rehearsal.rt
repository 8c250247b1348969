//! A rehearsal: four bars over a node in memory, in one thread, so that each run prints the same. It begins with 120 beats a minute; its
//! own callback starts to play and goes over to 128 in the third bar, and a peer to 150 in the fourth.

ghost use Rattle.std.specs.Prelude.{pos, ◌≡◌, ◌≤◌, ◌<◌, ◌+◌, ◌^◌, [], length};
ghost use Rattle.std.specs.Bool.{OnTrue, OnFalse};
ghost use Rattle.lk_base.specs.Ranges.{IsMoment};
ghost use Rattle.lk_outside.specs.Faults.{Rose};
ghost use Rattle.client_state.specs.State.{IsTidyState};
ghost use Rattle.link_shared.specs.Hub.{IsOnGate};
ghost use Rattle.drum_machine.specs.Ends.{EndsRehearsal};
ghost use Rattle.drum_machine.specs.Rehearsal.{AreTold, HasEdited, IsRehearsed, begins_at, change_with};
ghost use Rattle.link_live.specs.NodeRun.{ArePartsOf};

use crate::callback::{BLOCK_LENGTH, Change, Drums, FRAMES, callback, edit};
use crate::score::Score;
use crate::status::Status;
use arrayvec::ArrayVec;
use asdp_messages::write_alive;
use audio_handoff::StateCell;
use link_live::one_gate_config;
use link_midi::MidiEvents;
use link_node::{GateSetup, Sends};
use link_payload::PeerFields;
use link_shared::{AudioPass, Got, Hub, Link, LinkName, Opened, Parts};
use lk_base::{Endpoint, Gate, NodeId, SessionStart, Timeline};
use lk_outside::Sink;
use std::alloc::Global;
use std::marker::Brand;
use std::sync::Wait;
use step_sequencer::{Pattern, Samples};
use triple_buffer::Triple;

/// When the node opens and the first block begins, in microseconds. It is later than 0: of two starts the one that was set later counts,
/// and a node opens with one that was set at 0.
const OPENED_AT: i64 = 1_000_000;

/// The last block of the fourth bar; in the next one the fifth begins.
const LAST_BLOCK: u32 = 372;

/// How many events there can be: one that comes for each block, the commits, and the end.
const EVENTS: u64 = 512;

/// The block with which the third bar begins, after 4 seconds.
const THIRD_BAR: u32 = 200;

/// The block in which the fourth bar begins, after 5.86 seconds and a little.
const FOURTH_BAR: u32 = 293;

/// What the peer tells: from then on, where the session is at the beat 11.968, it goes on at 150 beats a minute. This beat origin is
/// greater than the session's, the beat 8 at which the tempo was set. The time is ghost time, which counts from where the session was
/// founded.
const PEERS_TIMELINE: Timeline = Timeline {
    mpb: 400_000,
    beat: 11_968_000,
    time: 5_860_000,
};

const HERE: Endpoint = Endpoint {
    addr: 0x7f00_0001,
    port: 20_808,
};

const PEERS_ENDPOINT: Endpoint = Endpoint {
    addr: 0x7f00_0001,
    port: 20_809,
};

/// Rehearses four bars of a pattern, and writes a line for each step that begins, one where the tempo shown has changed, and last how many
/// steps and MIDI events there were.
pub fn rehearse<R: Wait, K: Sink>(rt: &R, alloc: Global, pattern: Pattern, out: &mut K) -> Status
    ensures told { result ≡ Status.Done → IsRehearsed 373 pattern (K.seen out.old).told (K.seen out.new).told }
    ensures ends { EndsRehearsal (K.seen out.old).faults (K.seen out.new).faults result }
{
    let gate = GateSetup {
        local: HERE,
        peers: ArrayVec::new(),
    };
    let config = one_gate_config(1, 500_000, gate);
    let session = config.id;
    let Ok(sends) = Sends::new(alloc) else {
        return Status::Memory;
    };
    let Ok(parts) = Parts::<Triple<11>>::new(rt, alloc, &(), &config, OPENED_AT, EVENTS) else {
        return Status::Memory;
    };
    if rehearse_bars::<Brand, R, K>(rt, parts, session, sends, pattern, out) {
        Status::Done
    } else {
        Status::Output
    }
}

// Makes the link, plays the bars, and ends it. Answers whether all lines were written.
fn rehearse_bars<N: LinkName, R: Wait, K: Sink>(
    rt: &R,
    parts: Parts<Triple<11>>,
    session: NodeId,
    mut sends: Sends,
    pattern: Pattern,
    out: &mut K,
) -> bool
    requires link { ArePartsOf N.app_states N.audio_states N.audio_commits N.queue N.name N.parts N.whole parts }
    requires gates { length parts.config.gates ≡ 1 }
    ensures told { OnTrue result (IsRehearsed 373 pattern (K.seen out.old).told (K.seen out.new).told) }
    ensures works { OnTrue result ((K.seen out.new).faults ≡ (K.seen out.old).faults) }
    ensures fails { OnFalse result (Rose (K.seen out.old).faults (K.seen out.new).faults) }
{
    let Opened {
        link,
        mut hub,
        audio: mut pass,
        app,
    } = Link::<Triple<11>, N>::make(parts);
    let mut score = Score::new();
    let (block, written) = play_bars(
        rt, &link, &mut hub, &mut pass, session, &mut sends, pattern, &mut score, out,
    );
    let now = start_of(block);
    hub.hand_in(app);
    let _ended = hub.last_turn(rt, link, &(), pass, now, &mut sends);
    if !written {
        return false;
    }
    score.tell_done(out)
}

// For each block a turn of the hub, the edit that is due, and the callback, until a line isn't written. Answers which block would be next,
// and whether all lines were written.
fn play_bars<N: LinkName, R: Wait, K: Sink>(
    rt: &R,
    link: &Link<Triple<11>, N>,
    hub: &mut Hub<Triple<11>, N>,
    pass: &mut AudioPass<Triple<11>, N>,
    session: NodeId,
    sends: &mut Sends,
    pattern: Pattern,
    score: &mut Score,
    out: &mut K,
) -> (u32, bool)
    requires gates { length hub.old.config.gates ≡ 1 }
    requires unmade { pass.old.made ≡ [] }
    requires untold { score.old.mpb ≡ pos 0 }
    ensures told { OnTrue result.1 (AreTold 373 pattern (K.seen out.old).told (K.seen out.new).told) }
    ensures block { result.0 ≤ 373 }
    ensures handed { hub.new.handed ≡ hub.old.handed }
    ensures works { OnTrue result.1 ((K.seen out.new).faults ≡ (K.seen out.old).faults) }
    ensures fails { OnFalse result.1 (Rose (K.seen out.old).faults (K.seen out.new).faults) }
{
    let mut drums = Drums::new(pattern, OPENED_AT);
    let mut samples = Samples::new();
    let mut midi = MidiEvents::new();
    let mut block = 0;
    while block <= LAST_BLOCK {
        let now = start_of(block);
        let first = block * FRAMES;
        let _turned = hub.turn(rt, link, &(), now, got_at(block, session), sends);
        edit_due(link, pass, block, now);
        let capture = callback(link, pass, &mut drums, first, &mut samples, &mut midi);
        if !score.tell_block(&capture, &drums, first, midi.len(), out) {
            return (block + 1, false);
        }
        block += 1;
    }
    (block, true)
}

// The host time at which a block begins.
fn start_of(block: u32) -> i64
    requires { block ≤ 373 }
    ensures moment { IsMoment result }
    ensures value { result ≡ begins_at block }
{
    OPENED_AT + i64::from(block) * BLOCK_LENGTH
}

// The change that is due with a block: it plays as of the first, and is faster from the third bar on.
fn change_due(block: u32) -> Option<Change>
    ensures { result ≡ change_with block }
{
    match block {
        0 => Some(Change::Play),
        THIRD_BAR => Some(Change::Tempo(468_750)),
        _ => None,
    }
}

// The own edits. Waits: no. Memory: none.
fn edit_due<C: StateCell<11, Way = ()>, N: LinkName>(
    link: &Link<C, N>,
    pass: &mut AudioPass<C, N>,
    block: u32,
    now: i64,
)
    requires moment { IsMoment now × (now ≡ begins_at block) }
    requires room { length pass.old.made + 1 < 2 ^ 60 }
    ensures edited { HasEdited block pass.old pass.new }
    ensures few { length pass.new.made ≤ length pass.old.made + 1 }
{
    let Some(change) = change_due(block) else {
        return;
    };
    let capture = link.capture_audio(&(), pass);
    edit(link, pass, &capture, change, now);
}

// What comes before a block: time, and once the alive of a peer in this session.
fn got_at(block: u32, session: NodeId) -> Got
    ensures { IsOnGate 1 result }
{
    if block != FOURTH_BAR {
        return Got::Tick;
    }
    let fields = PeerFields {
        timeline: PEERS_TIMELINE,
        session,
        start: SessionStart {
            playing: false,
            beats: 0,
            stamp: 0,
        },
        endpoint: Some(PEERS_ENDPOINT),
    };
    Got::Datagram {
        gate: Gate(0),
        from: PEERS_ENDPOINT,
        bytes: write_alive(NodeId(*b"the peer"), 0, &fields),
    }
}
