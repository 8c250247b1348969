//! Ports that send to each other over the loopback interface.

ghost use Rattle.std.specs.Prelude.{◌≡◌, ◌<◌, length, IfOk};
ghost use Rattle.link_adapters.specs.Sockets.{locals_of};

use super::devices::moment_by;
use link_adapters::{About, ClickAudio, ClockPace, HostClock, UdpPort, address_of};
use lk_base::{Clicks, Endpoint, Gate};
use lk_outside::{Arrival, Audio, Bound, Next, Pace, Played, Port, Posted};
use std::alloc::Global;
use std::io;
use std::net::{Net, UdpSocket};
use std::process::Abort;
use std::sync::Wait;
use std::test::Fail;
use std::thread::{join, sleep};
use std::time::{Clock, Duration};

/// 127.0.0.1
const HERE: u32 = 0x7f00_0001;

/// Networks of this host, 127.1.0.0 and so on, one for each test that runs beside the others. At 127.0.0.1 the system picks ports for
/// whoever asks at any time, so what is free there may be taken before it is bound.
const SCRIPTS_NETWORK: u32 = 0x7f01_0000;

const IDLE_NETWORK: u32 = 0x7f02_0000;

const WAIT_NETWORK: u32 = 0x7f03_0000;

const DEVICES_NETWORK: u32 = 0x7f04_0000;

/// How long a datagram is waited for at most, in microseconds.
const PATIENCE: i64 = 5_000_000;

/// Until when a port waits for a datagram that comes during the wait, and before when it has to be there, in microseconds.
const END: i64 = 40_000_000;

const SOON: i64 = 20_000_000;

/// After when it is sent, in microseconds: half a second after the wait begins.
const SENT: i64 = 400_000;

/// What is told of a run where a port is bound.
const ABOUT: About = About {
    program: "jorazhil",
    command: "live",
    blocks: Some(0),
    events: 1,
    quantum: 0,
    group: 0,
};

/// One of the two ports of a script.
#[derive(Clone, Copy, Debug)]
enum Side {
    Near,
    Far,
}

use Side::{Far, Near};

/// What is done with a port, and what has to come of it. A number of an end stands for one of the endpoints of a script.
#[derive(Clone, Copy, Debug)]
enum Step {
    /// It binds gates at so many ends, from this one on.
    Bind(Side, usize, usize, Bound),
    /// It sends from a gate to an end a datagram of so many bytes, each of which is this one.
    Send(Side, u8, usize, usize, u8, Posted),
    /// On a gate of it came from an end a datagram of so many bytes, each of which is this one.
    Came(Side, u8, usize, usize, u8),
    /// Nobody has bound this end.
    Free(usize),
}

use Step::{Bind, Came, Free, Send};

/// The endpoints of a script.
type Ends = [Endpoint; 8];

/// Port 0 of this host.
const NO_PORT: usize = 5;

/// Beyond the loopback interface: 192.0.2.1.
const BEYOND: usize = 6;

/// A broadcast address, which takes an option that isn't set.
const BROADCAST: usize = 7;

/// What two ports do, by what it shows. The ends 0 to 4 are of this host, and free at first.
const SCRIPTS: &[(&str, &[Step])] = &[
    (
        "two ports send to each other",
        &[
            Bind(Near, 0, 1, Bound::Ready),
            Bind(Far, 1, 1, Bound::Ready),
            Send(Near, 0, 1, 3, 97, Posted::Sent),
            Came(Far, 0, 0, 3, 97),
            Send(Far, 0, 0, 0, 0, Posted::Sent),
            Came(Near, 0, 1, 0, 0),
        ],
    ),
    (
        "a datagram that is too long keeps 513 bytes",
        &[
            Bind(Near, 0, 1, Bound::Ready),
            Bind(Far, 1, 1, Bound::Ready),
            Send(Near, 0, 1, 512, 7, Posted::Sent),
            Came(Far, 0, 0, 512, 7),
            Send(Near, 0, 1, 513, 7, Posted::Sent),
            Came(Far, 0, 0, 513, 7),
            Send(Near, 0, 1, 600, 7, Posted::Sent),
            Came(Far, 0, 0, 513, 7),
            Send(Near, 0, 1, 1, 97, Posted::Sent),
            Came(Far, 0, 0, 1, 97),
        ],
    ),
    (
        "no gate is starved",
        &[
            Bind(Near, 0, 1, Bound::Ready),
            Bind(Far, 1, 2, Bound::Ready),
            Send(Near, 0, 1, 1, 97, Posted::Sent),
            Send(Near, 0, 1, 1, 98, Posted::Sent),
            Send(Near, 0, 1, 1, 99, Posted::Sent),
            Send(Near, 0, 2, 1, 100, Posted::Sent),
            Came(Far, 0, 0, 1, 97),
            Came(Far, 1, 0, 1, 100),
            Came(Far, 0, 0, 1, 98),
            Came(Far, 0, 0, 1, 99),
        ],
    ),
    (
        "each gate sends from its endpoint",
        &[
            Bind(Near, 0, 2, Bound::Ready),
            Bind(Far, 2, 1, Bound::Ready),
            Send(Near, 1, 2, 1, 98, Posted::Sent),
            Came(Far, 0, 1, 1, 98),
            Send(Near, 0, 2, 1, 97, Posted::Sent),
            Came(Far, 0, 0, 1, 97),
        ],
    ),
    // A port begins with the gate behind the one that answered last: so the gate 3 is the fourth that it asks, each other one the third.
    (
        "each of four gates hears and sends",
        &[
            Bind(Near, 0, 4, Bound::Ready),
            Bind(Far, 4, 1, Bound::Ready),
            Send(Far, 0, 3, 1, 97, Posted::Sent),
            Came(Near, 3, 4, 1, 97),
            Send(Far, 0, 2, 1, 98, Posted::Sent),
            Came(Near, 2, 4, 1, 98),
            Send(Far, 0, 1, 1, 99, Posted::Sent),
            Came(Near, 1, 4, 1, 99),
            Send(Far, 0, 0, 1, 100, Posted::Sent),
            Came(Near, 0, 4, 1, 100),
            Send(Near, 0, 4, 1, 101, Posted::Sent),
            Came(Far, 0, 0, 1, 101),
            Send(Near, 1, 4, 1, 102, Posted::Sent),
            Came(Far, 0, 1, 1, 102),
            Send(Near, 2, 4, 1, 103, Posted::Sent),
            Came(Far, 0, 2, 1, 103),
            Send(Near, 3, 4, 1, 104, Posted::Sent),
            Came(Far, 0, 3, 1, 104),
        ],
    ),
    (
        "a datagram that the system refuses is dropped",
        &[
            Bind(Near, 0, 1, Bound::Ready),
            Send(Near, 0, NO_PORT, 3, 97, Posted::Dropped),
            Send(Near, 0, BEYOND, 3, 97, Posted::Dropped),
            Send(Near, 0, BROADCAST, 3, 97, Posted::Dropped),
            // Longer than a datagram may be.
            Send(Near, 0, 0, 70_000, 0, Posted::Dropped),
        ],
    ),
    (
        "a port that nobody has bound ends nothing",
        &[
            Bind(Near, 0, 1, Bound::Ready),
            Send(Near, 0, 1, 3, 97, Posted::Sent),
            Send(Near, 0, 0, 1, 98, Posted::Sent),
            Came(Near, 0, 0, 1, 98),
        ],
    ),
    (
        "a bind takes the place of the one before",
        &[
            Bind(Near, 0, 1, Bound::Ready),
            Bind(Far, 2, 1, Bound::Ready),
            Bind(Near, 1, 1, Bound::Ready),
            Free(0),
            Send(Near, 0, 2, 1, 97, Posted::Sent),
            Came(Far, 0, 1, 1, 97),
            Send(Far, 0, 1, 1, 98, Posted::Sent),
            Came(Near, 0, 2, 1, 98),
        ],
    ),
    // What was bound before the failure is free again.
    (
        "a bind that fails keeps the gates of before",
        &[
            Bind(Near, 0, 1, Bound::Ready),
            Bind(Far, 2, 1, Bound::Ready),
            Bind(Near, 1, 2, Bound::Failed),
            Free(1),
            Send(Near, 0, 2, 1, 97, Posted::Sent),
            Came(Far, 0, 0, 1, 97),
            Send(Far, 0, 0, 1, 98, Posted::Sent),
            Came(Near, 0, 2, 1, 98),
        ],
    ),
];

// rule: IsInBuffer, posted_at
#[test]
fn two_ports_go_by_each_script(rt: HostRuntime) -> Result<(), Fail> {
    for (shown, steps) in SCRIPTS {
        let done = done_of(rt, rt.alloc(), steps)?;
        assert!(rt; done == steps.len(), "{shown}: step {done}");
    }
    Ok(())
}

// How many steps two ports without gates do as they have to.
fn done_of<R: Net + Clock + Wait + Eprint + Copy + Drop>(
    rt: R,
    alloc: Global,
    steps: &[Step],
) -> io::Result<usize> {
    let ends = ends(&rt, SCRIPTS_NETWORK)?;
    let mut near = without_gates(rt, alloc)?;
    done_beside(rt, alloc, &ends, &mut near, steps)
}

fn done_beside<R: Net + Clock + Wait + Eprint + Copy + Drop>(
    rt: R,
    alloc: Global,
    ends: &Ends,
    near: &mut GatedPort<R>,
    steps: &[Step],
) -> io::Result<usize> {
    let mut far = without_gates(rt, alloc)?;
    Ok(steps_done(&rt, alloc, ends, near, &mut far, steps))
}

// Each of the free ends has an address of its own in this network, and all of them a port that is free at its first address.
fn ends<R: Net>(rt: &R, network: u32) -> io::Result<Ends> {
    let socket = UdpSocket::bind(rt, address_of(end(network, 0)))?;
    let port = socket.local_addr()?.port();
    Ok([
        end(network | 1, port),
        end(network | 2, port),
        end(network | 3, port),
        end(network | 4, port),
        end(network | 5, port),
        end(HERE, 0),
        end(0xc000_0201, 20_808),
        end(0xffff_ffff, 20_808),
    ])
}

fn end(addr: u32, port: u16) -> Endpoint {
    Endpoint { addr, port }
}

/// A port with its clock, and how many gates it has.
#[derive(Drop)]
struct GatedPort<R: Net + Clock + Wait + Eprint + Copy + Drop> {
    port: UdpPort<R>,
    clock: HostClock,
    gates: usize,
    ghost same: { gates ≡ length (locals_of port.gates.items) },
}

// A port with no gate.
fn without_gates<R: Net + Clock + Wait + Eprint + Copy + Drop>(
    rt: R,
    alloc: Global,
) -> io::Result<GatedPort<R>> {
    let clock = HostClock::started(&rt)?;
    let port = UdpPort::new(rt, alloc, clock, ABOUT)?;
    Ok(GatedPort {
        port,
        clock,
        gates: 0,
    })
}

// A port of four gates, at the first ends.
fn idle_port<R: Net + Clock + Wait + Eprint + Copy + Drop>(
    rt: R,
    alloc: Global,
    ends: &Ends,
) -> io::Result<GatedPort<R>> {
    let mut port = without_gates(rt, alloc)?;
    let _bound = port.bind(some_of(ends, 0, 4));
    Ok(port)
}

impl<R: Net + Clock + Wait + Eprint + Copy + Drop> GatedPort<R> {
    fn bind(&mut self, gates: &[Endpoint]) -> Bound {
        if gates.is_empty() || gates.len() > 4 {
            return Bound::Failed;
        }
        match self.port.bind(gates) {
            Bound::Ready => {
                self.gates = gates.len();
                Bound::Ready
            }
            Bound::Failed => Bound::Failed,
        }
    }

    // Sends so many bytes, each of which is this one.
    fn send_all(
        &mut self,
        alloc: Global,
        gate: u8,
        to: Endpoint,
        count: usize,
        byte: u8,
    ) -> Posted {
        let Ok(bytes) = vec![in alloc; byte; count] else {
            return Posted::Failed;
        };
        if usize::from(gate) < self.gates {
            self.port.send(Gate(gate), to, &bytes)
        } else {
            Posted::Failed
        }
    }

    fn receive(&mut self, until: i64) -> Arrival {
        if self.gates == 0 {
            return Arrival::Failed;
        }
        self.port.receive(until)
    }
}

// How many steps came to what they have to, up to the first that didn't.
fn steps_done<R: Net + Clock + Wait + Eprint + Copy + Drop>(
    rt: &R,
    alloc: Global,
    ends: &Ends,
    near: &mut GatedPort<R>,
    far: &mut GatedPort<R>,
    steps: &[Step],
) -> usize {
    let mut done = 0usize;
    for step in steps {
        let goes = match side_of(*step) {
            Side::Near => is_as_told(rt, alloc, ends, near, *step),
            Side::Far => is_as_told(rt, alloc, ends, far, *step),
        };
        if !goes {
            return done;
        }
        done = done.saturating_add(1);
    }
    done
}

fn side_of(step: Step) -> Side {
    match step {
        Step::Bind(side, _, _, _) => side,
        Step::Send(side, _, _, _, _, _) => side,
        Step::Came(side, _, _, _, _) => side,
        Step::Free(_) => Side::Near,
    }
}

// Whether what has to come of a step has come of it, at its port.
fn is_as_told<R: Net + Clock + Wait + Eprint + Copy + Drop>(
    rt: &R,
    alloc: Global,
    ends: &Ends,
    port: &mut GatedPort<R>,
    step: Step,
) -> bool {
    match step {
        Step::Bind(_, first, count, bound) => port.bind(some_of(ends, first, count)) == bound,
        Step::Send(_, gate, to, count, byte, posted) => {
            port.send_all(alloc, gate, at(ends, to), count, byte) == posted
        }
        Step::Came(_, gate, from, count, byte) => {
            is_datagram(&port.receive(PATIENCE), gate, at(ends, from), count, byte)
        }
        Step::Free(place) => is_free(rt, at(ends, place)),
    }
}

fn at(ends: &Ends, place: usize) -> Endpoint {
    ends.get(place).copied().unwrap_or(end(0, 0))
}

fn some_of(ends: &Ends, first: usize, count: usize) -> &[Endpoint] {
    ends.get(first..first.saturating_add(count)).unwrap_or(&[])
}

fn is_datagram(arrival: &Arrival, gate: u8, from: Endpoint, count: usize, byte: u8) -> bool {
    match arrival {
        Arrival::Datagram {
            gate: on,
            from: sender,
            bytes,
            ..
        } => {
            *on == Gate(gate)
                && *sender == from
                && bytes.len() == count
                && bytes.iter().all(|b| *b == byte)
        }
        _ => false,
    }
}

// Whether nobody has bound this endpoint of this host.
fn is_free<R: Net>(rt: &R, endpoint: Endpoint) -> bool {
    UdpSocket::bind(rt, address_of(endpoint)).is_ok()
}

#[test]
fn a_port_is_idle_at_its_time_and_not_before(rt: HostRuntime) -> Result<(), Fail> {
    let ends = ends(&rt, IDLE_NETWORK)?;
    let mut port = idle_port(rt, rt.alloc(), &ends)?;
    assert!(rt; waits(&rt, &mut port));
    Ok(())
}

// Whether a port is idle no earlier than at its time, and for one that has gone by, and one before the start, at once.
fn waits<R: Net + Clock + Wait + Eprint + Copy + Drop>(rt: &R, port: &mut GatedPort<R>) -> bool {
    let until = moment_by(&port.clock, rt).saturating_add(12_000);
    let told = idle(port, until);
    let now = moment_by(&port.clock, rt);
    until <= told && told <= now && idle(port, 1) >= now && idle(port, -1) >= now
}

// The moment until which nothing came; that before all where something did.
fn idle<R: Net + Clock + Wait + Eprint + Copy + Drop>(port: &mut GatedPort<R>, until: i64) -> i64 {
    match port.receive(until) {
        Arrival::Idle(now) => now,
        _ => i64::MIN,
    }
}

#[test]
fn a_datagram_ends_the_wait_in_which_it_comes(rt: HostRuntime) -> Result<(), Fail> {
    let ends = ends(&rt, WAIT_NETWORK)?;
    let mut port = idle_port(rt, rt.alloc(), &ends)?;
    let (came, sent) = join(
        &rt,
        move || is_soon(&port.receive(END), 1) && is_soon(&port.receive(END), 3),
        move || is_sent_later(&rt, at(&ends, 1)) && is_sent_later(&rt, at(&ends, 3)),
    );
    assert!(rt; came && sent);
    Ok(())
}

// Whether it is a datagram that is sent below, on this gate, and came when it was sent, long before the end.
fn is_soon(arrival: &Arrival, on: u8) -> bool {
    match arrival {
        Arrival::Datagram {
            gate,
            bytes,
            now,
            ..
        } => {
            *gate == Gate(on) && bytes.as_slice() == b"a".as_slice() && *now >= SENT && *now < SOON
        }
        _ => false,
    }
}

// Sends a datagram half a second later, by when the other thread waits for it.
fn is_sent_later<R: Net + Clock>(rt: &R, to: Endpoint) -> bool {
    sleep(rt, Duration::from_millis(500));
    match UdpSocket::bind(rt, address_of(end(HERE, 0))) {
        Ok(socket) => socket.send_to(b"a", address_of(to)).is_ok(),
        Err(_) => false,
    }
}

#[test]
fn each_device_goes_to_a_thread_of_its_own(rt: HostRuntime) -> Result<(), Fail> {
    let mut port = devices_port(rt, rt.alloc())?;
    let clock = port.clock;
    let mut audio = ClickAudio::new(Vec::<u8>::new(rt.alloc()), rt, clock)?;
    let mut pace = ClockPace::new(rt, clock);
    let (told, (played, moment)) = join(
        &rt,
        move || idle(&mut port, 3_000),
        move || join(&rt, move || plays(&mut audio), move || pace.until(2_000)),
    );
    assert!(rt; told >= 3_000 && played && moment >= 2_000);
    Ok(())
}

fn devices_port<R: Net + Clock + Wait + Eprint + Copy + Drop>(
    rt: R,
    alloc: Global,
) -> io::Result<GatedPort<R>> {
    let ends = ends(&rt, DEVICES_NETWORK)?;
    idle_port(rt, alloc, &ends)
}

/// Whether a device gives a block and plays nothing in it.
fn plays<A: Audio>(audio: &mut A) -> bool {
    let none = Clicks::new();
    matches!(audio.next(), Next::Block(_)) && audio.play(&none) == Played::Done
}
