//! The loop that owns the network: what comes goes to the hub, and what the hub sends goes out.

ghost use Rattle.std.specs.Prelude.{◌≡◌, ◌<◌, if◌then◌else◌, int_le, [], true, false, length, map, Option};
ghost use Rattle.std.specs.List.{AllByRecursion};
ghost use Rattle.lk_base.specs.Ranges.{IsMoment};
ghost use Rattle.lk_outside.specs.Faults.{Rose};
ghost use Rattle.lk_outside.specs.Contents.{BothTell};
ghost use Rattle.lk_outside.specs.Port.{PortContents, PostsOne};
ghost use Rattle.link_node.specs.Event.{sending_value};
ghost use Rattle.link_shared.specs.Hub.{HubView};
ghost use Rattle.link_shared.specs.declared.got.Got.TheVariants as got;
ghost use Rattle.link_live.specs.Network.{HasCause, IsNetworkRun, locals_of, post_of};
ghost use Rattle.link_live.specs.Running.{HasAsked, HasPosted, IsRunning, RunLaws};

use crate::rest::rest;
use audio_handoff::StateCell;
use link_node::{
    Sending, Sends, commits_are_counted, commits_put_off_nothing, commits_send_nothing,
    datagrams_go_out_on_gates, moments_never_fall, nodes_are_well_formed, runs_go_on,
};
use link_shared::{Got, Hub, Link, LinkName};
use lk_outside::{Arrival, Port, Posted};
use std::sync::Wait;

/// How long a receive waits at most, in microseconds.
const PATIENCE: i64 = 5_000;

/// How the loop that owns the network has ended.
#[derive(Clone, Copy, Debug, PartialEq, Eq)]
pub struct NetEnd {
    /// No gate was bound, or a call of the port failed.
    pub failed: bool,
    /// An event found no room in the journal.
    pub full: bool,
    /// The greatest moment heard, in microseconds.
    pub clock: i64,
}

// How far the loop is.
#[derive(Clone, Copy, Debug)]
struct Line {
    // The greatest moment heard, in microseconds.
    clock: i64,
    // Nothing will come any more.
    closed: bool,
    // The port isn't called again.
    failed: bool,
    // An event found no room in the journal.
    full: bool,
}

/// Makes turns of the hub until one pops a quit: each with a tick where one is due at the greatest moment heard, and else with what
/// the port receives within 5 milliseconds, at most until a tick is due. What a turn sends goes out at once, in order. Once a call of
/// the port has failed, or where its gates aren't bound, the port isn't called (again); once it is closed, or an event found the
/// journal full, it isn't asked to receive. A turn that then takes no event is followed by a rest, as the next one would come at once.
///
/// Waits: in the port, for a place's last user in the queue, by the way, and in a rest. Memory: none.
pub fn network_loop<C: StateCell<11>, N: LinkName, P: Port, R: Wait>(
    rt: &R,
    hub: &mut Hub<C, N>,
    link: &Link<C, N>,
    way: &C::Way,
    port: &mut P,
    bound: bool,
    sends: &mut Sends,
) -> NetEnd
    requires empty { hub.old.journal ≡ [] }
    requires gates { bound ≡ true → (P.seen port.old).gates ≡ locals_of hub.old.config }
    ensures run { IsNetworkRun hub.old hub.new (P.seen port.old).told (P.seen port.new).told result.clock result.failed result.full }
    ensures cause { HasCause bound (P.seen port.old) (P.seen port.new) result.failed }
    ensures gates { (P.seen port.new).gates ≡ (P.seen port.old).gates }
{
    let mut line = Line {
        clock: hub.moment(),
        closed: false,
        failed: !bound,
        full: false,
    };
    for _ in rt.forever() {
        if network_turn(rt, hub, link, way, port, &mut line, sends) {
            return NetEnd {
                failed: line.failed,
                full: line.full,
                clock: line.clock,
            };
        }
    }
    unreachable!()
}

// One turn of the hub, with what is due or what the port answers, and what it sends. Answers whether it popped a quit.
// Waits: in the port, for a place's last user in the queue, by the way, and in a rest. Memory: none.
fn network_turn<C: StateCell<11>, N: LinkName, P: Port, R: Wait>(
    rt: &R,
    hub: &mut Hub<C, N>,
    link: &Link<C, N>,
    way: &C::Way,
    port: &mut P,
    line: &mut Line,
    sends: &mut Sends,
) -> bool
    requires moment { IsMoment line.old.clock }
    requires gates { line.old.failed ≡ false → (P.seen port.old).gates ≡ locals_of hub.old.config }
    ensures run { (first : HubView) (told : Option PortContents) → IsRunning first hub.old told (P.seen port.old).told line.old false
        → IsRunning first hub.new told (P.seen port.new).told line.new result }
    ensures config { hub.new.config ≡ hub.old.config }
    ensures gates { (P.seen port.new).gates ≡ (P.seen port.old).gates }
    ensures works { line.new.failed ≡ false → (line.old.failed ≡ false) × ((P.seen port.new).faults ≡ (P.seen port.old).faults) }
    ensures fails { line.old.failed ≡ false → line.new.failed ≡ true → Rose (P.seen port.old).faults (P.seen port.new).faults }
    ensures unbound { line.old.failed ≡ true → (line.new.failed ≡ true) × ((P.seen port.new).faults ≡ (P.seen port.old).faults) × ((P.seen port.new).told ≡ (P.seen port.old).told) }
{
    // Laws, for the proof.
    run_laws();
    datagrams_go_out_on_gates();
    let due = hub.due();
    let _opening = hub.moment();
    let before = hub.journal().len();
    let got = ask(port, due, line);
    let turned = hub.turn(rt, link, way, line.clock, got, sends);
    let taken = hub.journal();
    let grew = before < taken.len();
    line.failed = post(port, sends.list(), line.failed);
    line.full |= turned.full;
    rest_where_idle(rt, *line, turned.quit, grew);
    turned.quit
}

// Rests where the port can't be asked any more, no quit was popped and the journal didn't grow.
// Waits: a millisecond at most. Memory: none.
fn rest_where_idle<R: Wait>(rt: &R, line: Line, quit: bool, grew: bool) {
    if !grew && !quit && (line.failed || line.closed || line.full) {
        rest(rt);
    }
}

// What a turn is given: a tick where one is due, and else what the port answers, where it can be asked.
// Waits: in the port. Memory: none.
fn ask<P: Port>(port: &mut P, due: i64, line: &mut Line) -> Got
    requires moment { IsMoment line.old.clock }
    requires gates { line.old.failed ≡ false → 0 < length (P.seen port.old).gates }
    ensures asked { HasAsked (length (P.seen port.old).gates) due line.old line.new (P.seen port.old).told (P.seen port.new).told result }
    ensures gates { (P.seen port.new).gates ≡ (P.seen port.old).gates }
    ensures works { line.new.failed ≡ false → (P.seen port.new).faults ≡ (P.seen port.old).faults }
    ensures fails { line.old.failed ≡ false → line.new.failed ≡ true → Rose (P.seen port.old).faults (P.seen port.new).faults }
    ensures unbound { line.old.failed ≡ true → (P.seen port.new).faults ≡ (P.seen port.old).faults }
{
    if due <= line.clock {
        return Got::Tick;
    }
    if line.failed || line.closed || line.full {
        return Got::Nothing;
    }
    match port.receive(due.min(line.clock + PATIENCE)) {
        Arrival::Datagram {
            gate,
            from,
            bytes,
            now,
        } => {
            line.clock = line.clock.max(now);
            Got::Datagram { gate, from, bytes }
        }
        Arrival::Idle(moment) => {
            line.clock = line.clock.max(moment);
            due_or_nothing(due, line.clock)
        }
        Arrival::Closed => {
            line.closed = true;
            Got::Nothing
        }
        Arrival::Failed => {
            line.failed = true;
            Got::Nothing
        }
    }
}

/// Sends the datagrams in order, unless the port has failed. Answers whether it has then.
/// Waits: in the port. Memory: none.
pub fn post<P: Port>(port: &mut P, sends: &[Sending], failed: bool) -> bool
    requires gates { failed ≡ false → AllByRecursion (λ s. s.gate.0 < length (P.seen port.old).gates) (map sending_value sends.now) }
    ensures posted { HasPosted (map sending_value sends.now) failed result (P.seen port.old).told (P.seen port.new).told }
    ensures gates { (P.seen port.new).gates ≡ (P.seen port.old).gates }
    ensures works { result ≡ false → (P.seen port.new).faults ≡ (P.seen port.old).faults }
    ensures fails { failed ≡ false → result ≡ true → Rose (P.seen port.old).faults (P.seen port.new).faults }
    ensures unbound { failed ≡ true → ((P.seen port.new).faults ≡ (P.seen port.old).faults) × ((P.seen port.new).told ≡ (P.seen port.old).told) }
{
    if failed {
        return true;
    }
    for sending in sends {
        if !post_one(port, sending) {
            return true;
        }
    }
    false
}

// Sends a datagram. Answers whether the port works. Waits: in the port. Memory: none.
fn post_one<P: Port>(port: &mut P, sending: &Sending) -> bool
    requires gate { sending.now.gate.0 < length (P.seen port.old).gates }
    ensures sent { result ≡ true → BothTell (PostsOne (post_of (sending_value sending.now))) (P.seen port.old).told (P.seen port.new).told }
    ensures failed { result ≡ false → (P.seen port.new).told ≡ (P.seen port.old).told }
    ensures gates { (P.seen port.new).gates ≡ (P.seen port.old).gates }
    ensures works { result ≡ true → (P.seen port.new).faults ≡ (P.seen port.old).faults }
    ensures fails { result ≡ false → Rose (P.seen port.old).faults (P.seen port.new).faults }
{
    match port.send(sending.gate, sending.to, &sending.bytes) {
        Posted::Sent | Posted::Dropped => true,
        Posted::Failed => false,
    }
}

// A tick where one is due.
fn due_or_nothing(due: i64, clock: i64) -> Got
    ensures { result ≡ (if int_le due clock then got.Tick else got.Nothing) }
{
    if due <= clock {
        Got::Tick
    } else {
        Got::Nothing
    }
}

/// Laws: how the machine and what it sends go on from one event to the next.
pub fn run_laws()
    ensures { RunLaws }
{
    moments_never_fall();
    commits_are_counted();
    commits_put_off_nothing();
    commits_send_nothing();
    runs_go_on();
    nodes_are_well_formed();
}
