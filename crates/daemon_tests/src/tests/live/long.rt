//! Ten minutes of ten peers, which the journal holds whole.

ghost use Rattle.std.specs.Prelude.{All, IfOk, IfSome};
ghost use Rattle.lk_outside.specs.Coming.{IsToCome};

use super::counts::miscounted;
use super::peers::{coming, endpoint_of, fields_of, id_of};
use super::sides::{Sides, sides_over};
use asdp_messages::{write_alive, write_ping_message, write_pong_message, write_response};
use link_daemon::Status;
use link_live::Report;
use link_node::Event;
use link_payload::PingFields;
use lk_base::Wire;
use lk_outside::{Arrival, ListPort};
use std::alloc::{AllocError, Global};
use std::process::Abort;
use std::sync::Wait;
use std::test::Fail;
use std::thread::Threads;

/// In each step of 25,000 microseconds one of the ten peers sends an alive and answers one of the node.
const STEPS: u32 = 24_000;

const SCRIPT: &[u8] =
    b"link 1\nsetup 500000 1\ngate 127.0.0.1:20808\nto 127.0.0.1:20809\nat 0 look\n";

#[test]
fn ten_minutes_of_ten_peers_are_taken_whole(rt: HostRuntime) -> Result<(), Fail> {
    let mut sides = sides_over(rt.alloc(), SCRIPT, 30_000)?;
    let port = held_to_its_end(&rt, rt.alloc(), &mut sides)?;
    expect_whole(&rt, rt.alloc(), &port, &sides.report);
    Ok(())
}

// Runs to the end of the port, and gives it back.
fn held_to_its_end<R: Threads + Wait + Sync + Abort>(
    rt: &R,
    alloc: Global,
    sides: &mut Sides,
) -> Result<ListPort, AllocError> {
    let port = port_of_ten(alloc)?;
    let (status, port) = sides.run_held(rt, alloc, "live", port)?;
    assert!(rt; status == Status::Done);
    Ok(port)
}

fn expect_whole<'a>(rt: &impl Abort, alloc: Global, port: &'a ListPort, report: &'a Report) {
    let found = miscounted(alloc, port.given(), &report.events);
    assert_eq!(rt;
        found,
        Ok(None),
        "bytes, how often the port gave them, and how often they were taken"
    );
    assert!(rt; is_whole(port, report));
}

fn port_of_ten(alloc: Global) -> Result<ListPort, AllocError> {
    ListPort::new(alloc, arrivals(alloc)?, 70_000, Vec::new(alloc))
}

// 48,000 alives and responses; 51 pings of each peer and 51 pongs, every 30 seconds.
fn is_whole(port: &ListPort, report: &Report) -> bool {
    port.rest().is_empty()
        && port.given().len() == 59_220
        && are_taken(port.given(), &report.events)
        && report.plays.len() == 30_000
}

// Whether the arrivals that a port has given are the datagrams of a journal, in order and no others.
fn are_taken(given: &[Arrival], events: &[Event]) -> bool {
    let mut place = 0usize;
    for event in events {
        if let Event::Rx { .. } = event {
            if !is_taken(given.get(place), event) {
                return false;
            }
            place = place.saturating_add(1);
        }
    }
    place == given.len()
}

fn is_taken(arrival: Option<&Arrival>, event: &Event) -> bool {
    match (arrival, event) {
        (
            Some(
                Arrival::Datagram {
                    gate,
                    from,
                    bytes,
                    now,
                },
            ),
            Event::Rx {
                gate: taken_gate,
                from: taken_from,
                bytes: taken_bytes,
                now: taken_now,
            },
        ) => {
            gate == taken_gate
                && from == taken_from
                && bytes.as_slice() == taken_bytes.as_slice()
                && now == taken_now
        }
        _ => false,
    }
}

fn arrivals(alloc: Global) -> Result<Vec<Arrival>, AllocError>
    ensures { IfOk result (λ arrivals. All IsToCome arrivals.items) }
{
    let mut arrivals = Vec::new(alloc);
    for place in 0..4 * STEPS {
        if let Some(arrival) = arrival_of(place / 4, place % 4) {
            arrivals.push(arrival)?;
        }
    }
    Ok(arrivals)
}

// Of up to four datagrams of a step, the one at a place.
fn arrival_of(step: u32, place: u32) -> Option<Arrival>
    ensures { IfSome result IsToCome }
{
    let peer = (step % 10) as u16;
    let now = 25_000 * i64::from(step);
    // Of its 120 steps in 30 seconds a peer measures in the first 51.
    let bytes = datagram_of(place, peer, now, step / 10 % 120 < 51)?;
    Some(coming(peer, bytes, now))
}

// All peers are in the session of the peer 0, which answers a ping of the node where it measures itself.
fn datagram_of(place: u32, peer: u16, now: i64, measures: bool) -> Option<Wire> {
    let fields = fields_of(id_of(0), 0, Some(endpoint_of(peer)));
    match place {
        0 => Some(write_alive(id_of(peer), 0, &fields)),
        1 => Some(write_response(id_of(peer), 0, &fields)),
        2 if measures => Some(ping_at(now)),
        3 if measures && peer == 0 => Some(write_pong_message(id_of(0), now, &[])),
        _ => None,
    }
}

fn ping_at(now: i64) -> Wire {
    write_ping_message(&PingFields {
        host: now,
        previous: None,
    })
}
