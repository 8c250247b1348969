//! A port in memory.

ghost use Rattle.std.specs.Prelude.{All, IfOk};
ghost use Rattle.lk_base.specs.Ranges.{IsMoment};
ghost use Rattle.lk_outside.specs.Coming.{IsToCome};

use lk_base::{Endpoint, Gate, Wire};
use lk_outside::Posted::Sent;
use lk_outside::{Arrival, BIND, Bound, ListPort, Port, Post, Posted, RECEIVE, SEND};
use std::alloc::{AllocError, Global};
use std::process::Abort;

const HERE: Endpoint = Endpoint {
    addr: 0x7F00_0001,
    port: 5001,
};

const THERE: Endpoint = Endpoint {
    addr: 0x7F00_0001,
    port: 5002,
};

const AWAY: Endpoint = Endpoint {
    addr: 0x0A00_0001,
    port: 6001,
};

const NO: &[Endpoint] = &[];

const ONE: &[Endpoint] = &[HERE];

const TWO: &[Endpoint] = &[HERE, THERE];

const OTHER: &[Endpoint] = &[AWAY];

// What a receive answers; of a datagram the gate and the first byte, and the moment.
type Told = (&'static str, u8, u8, i64);

const FIRST: Told = ("datagram", 0, b'a', 5);

const SECOND: Told = ("idle", 0, 0, 7);

const THIRD: Told = ("datagram", 1, b'b', 9);

const CLOSED: Told = ("closed", 0, 0, 0);

const FAILED: Told = ("failed", 0, 0, 0);

// What is done with a port, and what comes of it.
enum Step {
    // Binds these gates; those bound afterwards.
    Bind(&'static [Endpoint], Bound, &'static [Endpoint]),
    Receive(Told),
    // Sends these bytes from the gate 0.
    Send(&'static [u8], Posted),
    // How many arrivals were given, datagrams posted and calls failed.
    Counts(usize, usize, u64),
    // The datagrams posted, each from the gate 0.
    Posts(&'static [&'static [u8]]),
}

// The bind that fails.
const BINDS: &[(u64, &[Step])] = &[
    (
        1,
        &[
            Step::Bind(ONE, Bound::Failed, NO),
            Step::Bind(TWO, Bound::Ready, TWO),
            Step::Bind(OTHER, Bound::Ready, OTHER),
            Step::Counts(0, 0, 1),
        ],
    ),
    (
        2,
        &[
            Step::Bind(ONE, Bound::Ready, ONE),
            Step::Bind(TWO, Bound::Failed, ONE),
            Step::Bind(OTHER, Bound::Ready, OTHER),
            Step::Counts(0, 0, 1),
        ],
    ),
    (
        3,
        &[
            Step::Bind(ONE, Bound::Ready, ONE),
            Step::Bind(TWO, Bound::Ready, TWO),
            Step::Bind(OTHER, Bound::Failed, TWO),
            Step::Counts(0, 0, 1),
        ],
    ),
];

// The receive that fails.
const RECEIVES: &[(u64, &[Step])] = &[
    (
        1,
        &[
            Step::Bind(TWO, Bound::Ready, TWO),
            Step::Receive(FAILED),
            Step::Receive(FIRST),
            Step::Receive(SECOND),
            Step::Counts(2, 0, 1),
            Step::Receive(THIRD),
            Step::Counts(3, 0, 1),
        ],
    ),
    (
        2,
        &[
            Step::Bind(TWO, Bound::Ready, TWO),
            Step::Receive(FIRST),
            Step::Receive(FAILED),
            Step::Receive(SECOND),
            Step::Counts(2, 0, 1),
            Step::Receive(THIRD),
            Step::Counts(3, 0, 1),
        ],
    ),
    (
        3,
        &[
            Step::Bind(TWO, Bound::Ready, TWO),
            Step::Receive(FIRST),
            Step::Receive(SECOND),
            Step::Receive(FAILED),
            Step::Counts(2, 0, 1),
            Step::Receive(THIRD),
            Step::Counts(3, 0, 1),
        ],
    ),
];

// The send that fails.
const SENDS: &[(u64, &[Step])] = &[
    (
        1,
        &[
            Step::Bind(ONE, Bound::Ready, ONE),
            Step::Send(b"a", Posted::Failed),
            Step::Send(b"b", Sent),
            Step::Send(b"c", Sent),
            Step::Posts(&[b"b", b"c"]),
            Step::Counts(0, 2, 1),
        ],
    ),
    (
        2,
        &[
            Step::Bind(ONE, Bound::Ready, ONE),
            Step::Send(b"a", Sent),
            Step::Send(b"b", Posted::Failed),
            Step::Send(b"c", Sent),
            Step::Posts(&[b"a", b"c"]),
            Step::Counts(0, 2, 1),
        ],
    ),
    (
        3,
        &[
            Step::Bind(ONE, Bound::Ready, ONE),
            Step::Send(b"a", Sent),
            Step::Send(b"b", Sent),
            Step::Send(b"c", Posted::Failed),
            Step::Posts(&[b"a", b"b"]),
            Step::Counts(0, 2, 1),
        ],
    ),
];

// The room.
const ROOMS: &[(usize, &[Step])] = &[
    (
        0,
        &[
            Step::Bind(ONE, Bound::Ready, ONE),
            Step::Send(b"a", Posted::Failed),
            Step::Send(b"b", Posted::Failed),
            Step::Send(b"c", Posted::Failed),
            Step::Counts(0, 0, 3),
        ],
    ),
    (
        1,
        &[
            Step::Bind(ONE, Bound::Ready, ONE),
            Step::Send(b"a", Sent),
            Step::Send(b"b", Posted::Failed),
            Step::Send(b"c", Posted::Failed),
            Step::Counts(0, 1, 2),
        ],
    ),
    (
        2,
        &[
            Step::Bind(ONE, Bound::Ready, ONE),
            Step::Send(b"a", Sent),
            Step::Send(b"b", Sent),
            Step::Send(b"c", Posted::Failed),
            Step::Counts(0, 2, 1),
        ],
    ),
    (
        3,
        &[
            Step::Bind(ONE, Bound::Ready, ONE),
            Step::Send(b"a", Sent),
            Step::Send(b"b", Sent),
            Step::Send(b"c", Sent),
            Step::Counts(0, 3, 0),
        ],
    ),
];

const SHORT: &[u8] = &[7; 513];

const LONG: &[u8] = &[7; 514];

// A datagram on the second gate, which is bound late.
const WAITS: &[Step] = &[
    Step::Bind(ONE, Bound::Ready, ONE),
    Step::Receive(FAILED),
    Step::Receive(FAILED),
    Step::Counts(0, 0, 2),
    Step::Bind(TWO, Bound::Ready, TWO),
    Step::Receive(THIRD),
    Step::Counts(1, 0, 2),
];

// Without arrivals.
const CLOSES: &[Step] = &[
    Step::Bind(ONE, Bound::Ready, ONE),
    Step::Receive(CLOSED),
    Step::Receive(CLOSED),
    Step::Receive(CLOSED),
    Step::Counts(0, 0, 0),
];

// With room for three.
const LENGTHS: &[Step] = &[
    Step::Bind(ONE, Bound::Ready, ONE),
    Step::Send(b"", Sent),
    Step::Send(SHORT, Sent),
    Step::Counts(0, 2, 0),
    Step::Send(LONG, Posted::Failed),
    Step::Posts(&[b"", SHORT]),
    Step::Counts(0, 2, 1),
];

fn told_by(arrival: &Arrival) -> Told {
    match arrival {
        Arrival::Datagram {
            gate,
            bytes,
            now,
            ..
        } => (
            "datagram",
            gate.0,
            bytes.first().copied().unwrap_or(0),
            *now,
        ),
        Arrival::Idle(now) => ("idle", 0, 0, *now),
        Arrival::Closed => CLOSED,
        Arrival::Failed => FAILED,
    }
}

// A datagram of one byte.
fn datagram(gate: u8, byte: u8, now: i64) -> Arrival
    requires { IsMoment now }
    ensures { IsToCome result }
{
    let mut bytes = Wire::new();
    bytes.push(byte);
    Arrival::Datagram {
        gate: Gate(gate),
        from: AWAY,
        bytes,
        now,
    }
}

// A datagram on gate 0 at 5, time alone until 7 and a datagram on gate 1 at 9.
fn three_arrivals(alloc: Global) -> Result<Vec<Arrival>, AllocError>
    ensures { IfOk result (λ arrivals. All IsToCome arrivals.items) }
{
    Ok(vec![in alloc;
        datagram(0, b'a', 5),
        Arrival::Idle(7),
        datagram(1, b'b', 9),
    ]?)
}

// A port with these arrivals and that room, whose call of this kind and number fails. A call of number 0 is never made.
fn expect_run(
    rt: &impl Abort,
    alloc: Global,
    arrivals: Vec<Arrival>,
    room: usize,
    failing: (u8, u64),
    steps: &[Step],
)
    requires { All IsToCome arrivals.items }
{
    let failing = vec![in alloc; failing].expect(rt, "memory for a call");
    let port = ListPort::new(alloc, arrivals, room, failing);
    play(rt, &mut port.expect(rt, "memory for a port"), steps);
}

fn play(rt: &impl Abort, port: &mut ListPort, steps: &[Step]) {
    for (k, step) in steps.iter().enumerate() {
        let right = is_right(port, step);
        assert!(rt; right, "step {k}");
    }
}

// Whether what has to come of a step comes of it. Nothing is received or sent without gates.
fn is_right(port: &mut ListPort, step: &Step) -> bool {
    match step {
        Step::Bind(gates, bound, after) => binds(port, gates) == *bound && has_gates(port, after),
        Step::Receive(told) => !port.gates().is_empty() && told_by(&port.receive(0)) == *told,
        Step::Send(bytes, posted) => {
            !port.gates().is_empty() && port.send(Gate(0), AWAY, bytes) == *posted
        }
        Step::Counts(given, posts, faults) => {
            port.given().len() == *given
                && port.posts().len() == *posts
                && port.fault_count() == *faults
        }
        Step::Posts(wanted) => are_posts(port.posts(), wanted),
    }
}

fn binds(port: &mut ListPort, gates: &[Endpoint]) -> Bound {
    if gates.is_empty() || gates.len() > 4 {
        return Bound::Failed;
    }
    port.bind(gates)
}

fn has_gates(port: &ListPort, gates: &[Endpoint]) -> bool {
    port.gates() == gates
}

// Whether these datagrams were posted, each from the gate 0.
fn are_posts(posts: &[Post], wanted: &[&[u8]]) -> bool {
    let mut right = posts.len() == wanted.len();
    for (post, bytes) in posts.iter().zip(wanted) {
        right = is_post(post, bytes) & right;
    }
    right
}

fn is_post(post: &Post, bytes: &[u8]) -> bool {
    post.gate == Gate(0) && post.to == AWAY && post.bytes.as_slice() == bytes
}

// rule: Rose, Binds
#[test]
fn a_failing_bind_leaves_the_gates_of_before(rt: HostRuntime) {
    for &(call, steps) in BINDS {
        expect_run(
            &rt,
            rt.alloc(),
            Vec::new(rt.alloc()),
            0,
            (BIND, call),
            steps,
        );
    }
}

// rule: Rose
#[test]
fn a_failing_receive_takes_nothing(rt: HostRuntime) {
    for &(call, steps) in RECEIVES {
        let arrivals = three_arrivals(rt.alloc()).expect(&rt, "memory for arrivals");
        expect_run(&rt, rt.alloc(), arrivals, 0, (RECEIVE, call), steps);
    }
}

// rule: Rose
#[test]
fn a_failing_send_posts_nothing(rt: HostRuntime) {
    for &(call, steps) in SENDS {
        expect_run(
            &rt,
            rt.alloc(),
            Vec::new(rt.alloc()),
            3,
            (SEND, call),
            steps,
        );
    }
}

// rule: IsAnswer
#[test]
fn a_datagram_waits_until_its_gate_is_bound(rt: HostRuntime) {
    let arrivals = vec![in rt.alloc(); datagram(1, b'b', 9)].expect(&rt, "memory for arrivals");
    expect_run(&rt, rt.alloc(), arrivals, 0, (RECEIVE, 0), WAITS);
}

#[test]
fn a_port_without_arrivals_is_closed_again_and_again(rt: HostRuntime) {
    expect_run(
        &rt,
        rt.alloc(),
        Vec::new(rt.alloc()),
        0,
        (RECEIVE, 0),
        CLOSES,
    );
}

#[test]
fn a_send_without_room_fails(rt: HostRuntime) {
    for &(room, steps) in ROOMS {
        expect_run(
            &rt,
            rt.alloc(),
            Vec::new(rt.alloc()),
            room,
            (SEND, 0),
            steps,
        );
    }
}

#[test]
fn a_datagram_of_514_bytes_is_too_long(rt: HostRuntime) {
    expect_run(&rt, rt.alloc(), Vec::new(rt.alloc()), 3, (SEND, 0), LENGTHS);
}
