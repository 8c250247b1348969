//! Scripts of two peers who meet, with further turns between theirs and behind them.

use super::{endpoint_of, hear, world_of};
use crate::tests::machine::{FIRST, OPENING, OWN, STILL, fields, wire_of};
use asdp_messages::write_alive;
use client_state::Commit;
use link_node::Event;
use link_world::{Turn, World};
use lk_base::{ClientStart, Gate, Timeline};
use std::alloc::{AllocError, Global};

// A turn of a peer, at a host time.
#[derive(Drop)]
pub enum Row {
    Tick(u32, i64),
    End(u32, i64),
    // An alive of the first peer happens to it of its own accord.
    Datagram(u32, i64),
    // A commit of a tempo whose beat 0 is at the opening.
    App(u32, i64, i64),
    // A commit of the audio thread, by its number.
    Audio(u32, u64, i64),
    // The datagram of a number comes from the first peer to the one of a number, on a gate.
    At(u32, u32, u8, i64),
    // It comes from one peer to another.
    Hear(u32, u32, u32, i64),
}

fn commit(mpb: i64, at: i64) -> Commit {
    Commit {
        timeline: Some(Timeline {
            mpb,
            beat: 0,
            time: OPENING,
        }),
        start: None::<ClientStart>,
        quantum: None::<i64>,
        at,
    }
}

// The events alone.
fn event_of(row: &Row) -> Event {
    match row {
        Row::End(_, now) => Event::End { now: *now },
        Row::Datagram(_, now) => Event::Rx {
            gate: Gate(0),
            from: endpoint_of(0),
            bytes: wire_of(&write_alive(OWN, 0, &fields(OWN, FIRST, STILL, 20_000))),
            now: *now,
        },
        Row::App(_, mpb, now) => Event::App {
            commit: commit(*mpb, *now),
            now: *now,
        },
        Row::Audio(_, number, now) => Event::Audio {
            number: *number,
            commit: commit(600_000, *now),
            now: *now,
        },
        Row::Tick(_, now) | Row::At(_, _, _, now) | Row::Hear(_, _, _, now) => {
            Event::Tick { now: *now }
        }
    }
}

fn turn_of(row: &Row) -> Turn {
    match row {
        Row::Tick(peer, _)
        | Row::End(peer, _)
        | Row::Datagram(peer, _)
        | Row::App(peer, _, _)
        | Row::Audio(peer, _, _) => Turn::Local {
            peer: *peer,
            event: event_of(row),
        },
        Row::At(index, peer, gate, now) => Turn::Deliver {
            index: *index,
            peer: *peer,
            gate: Gate(*gate),
            from: endpoint_of(0),
            now: *now,
        },
        Row::Hear(index, from, peer, now) => hear(*index, *from, *peer, *now),
    }
}

// A turn of the meeting, of which there are 105. The second peer hears the first, measures its session and joins it. Both clocks are
// one, so it is the lesser id that wins. Of the datagrams 0 is the first's alive, 1 the response to it, 2 the first ping and 3 the
// second's alive; then pongs and pings take turns, from 4 on. The first pong gives one point and each later one two: the 51st is the
// last, the datagram 104.
fn met(k: u32) -> Turn {
    match k {
        0 => turn_of(&Row::Tick(0, 1_000_000)),
        1 => hear(0, 0, 1, 1_000_010),
        2 => turn_of(&Row::Tick(1, 1_000_020)),
        3 => hear(2, 1, 0, 1_000_020),
        _ if k % 2 == 0 => hear(k, 0, 1, 1_000_020),
        _ => hear(k, 1, 0, 1_000_020),
    }
}

// The turns of the meeting from one to before another, and rows behind them.
pub type Part<'a> = (u32, u32, &'a [Row]);

fn script_of(alloc: Global, parts: &[Part<'_>]) -> Result<Vec<Turn>, AllocError> {
    let mut script = Vec::new(alloc);
    for (first, end, rows) in parts {
        for k in *first..*end {
            script.push(met(k))?;
        }
        for row in rows.iter() {
            script.push(turn_of(row))?;
        }
    }
    Ok(script)
}

// The world of two peers after a script.
pub fn world_by(alloc: Global, parts: &[Part<'_>]) -> Result<World, AllocError> {
    world_of(alloc, 2, false, &script_of(alloc, parts)?)
}
