//! A session of many clients: a run of two threads over a port, talks and a pace in memory.
//!
//! Each node opens at 0 with 500,000 microseconds per beat from beat 0 there, four beats a bar. Nothing comes to its port.

ghost use Rattle.link_node.specs.Config.{config_value, IsConfig};

use arrayvec::ArrayVec;
use link_asks::{GateState, GateTold};
use link_clients::{Lookout, Rig, ServeRun, Sighted, Terms, serve_run};
use link_node::{Config, GateSetup};
use link_shared::Capture;
use lk_base::{Endpoint, MOMENT_MAX, NodeId};
use lk_outside::{ListPace, ListPort};
use lk_talks::{ListTalks, Step};
use std::alloc::Global;
use std::process::Abort;
use std::sync::Wait;
use std::thread::Threads;

// Where the talks are opened, and the node's gate.
const HERE: Endpoint = Endpoint {
    addr: 0x7F00_0001,
    port: 5001,
};

/// What happens among the clients.
#[derive(Clone, Copy)]
pub enum Does<'a> {
    Comes,
    Sends(u8, &'a [u8]),
    Goes(u8),
    Clogs(u8),
    Clears(u8),
    /// So many rounds begin.
    Rests(u16),
}

/// What is given to a session besides what its clients do.
#[derive(Clone, Copy)]
pub struct Given {
    /// How many bytes are heard at once at most, and for how many rows the record has room.
    pub most: usize,
    pub room: usize,
    /// The calls of the talks and of the port that fail: the k-th of a kind.
    pub talks: (u8, u64),
    pub port: (u8, u64),
    /// How many events the journal takes.
    pub events: u64,
    /// How late the pace answers, in microseconds: that is how far the moments of looks and lines are from each other.
    pub late: i64,
    /// Whether a client may ask for the end, and the moment at which serving ends.
    pub may_end: bool,
    pub ends_at: i64,
    /// At which look the lookout says that the journal takes nothing more, from 1.
    pub full_at: u64,
}

/// A call that is never made.
pub const NEVER: (u8, u64) = (0, 0);

/// What is usual: nothing fails, and looks and lines are a quarter of a second from each other.
pub const USUAL: Given = Given {
    most: 512,
    room: 2_000,
    talks: NEVER,
    port: NEVER,
    events: 300,
    late: 250_000,
    may_end: false,
    ends_at: MOMENT_MAX,
    full_at: 0,
};

/// What comes of a session.
#[derive(Drop)]
pub struct Session<B> {
    pub run: ServeRun,
    pub talks: ListTalks,
    pub lookout: B,
}

/// A lookout that counts its looks and the clients that it is told of, and answers the same gates each time.
#[derive(Debug, Drop)]
pub struct Watch {
    pub looks: u64,
    /// The most clients so far.
    pub most: u32,
    pub full_at: u64,
}

impl Lookout for Watch {
    fn look(&mut self, _newest: &Capture, _at: i64, clients: u32) -> Sighted {
        self.looks = self.looks.wrapping_add(1);
        self.most = self.most.max(clients);
        Sighted {
            gates: gates(),
            full: self.looks == self.full_at,
        }
    }
}

/// How the gates stand.
pub fn gates() -> ArrayVec<GateTold, 4> {
    let mut gates = ArrayVec::new();
    let _room = gates.try_push(GateTold {
        state: GateState::Bound,
        refused: 0,
    });
    let _room = gates.try_push(GateTold {
        state: GateState::Failed,
        refused: 20,
    });
    gates
}

fn config() -> Config
    ensures { IsConfig (config_value result) }
{
    let mut gates = ArrayVec::new();
    gates.push(GateSetup {
        local: HERE,
        peers: ArrayVec::new(),
    });
    Config {
        id: NodeId(*b"AAAAAAAA"),
        seed: 1,
        mpb: 500_000,
        sync: true,
        group: 0,
        quantum: 4_000_000,
        gates,
    }
}

/// The steps of what happens.
pub fn steps_of(rt: &impl Abort, alloc: Global, does: &[Does]) -> Vec<Step> {
    let mut steps = Vec::new(alloc);
    for one in does {
        put_step(rt, alloc, &mut steps, *one);
    }
    steps
}

/// Puts what happens behind some steps.
pub fn put_step(rt: &impl Abort, alloc: Global, steps: &mut Vec<Step>, does: Does) {
    match does {
        Does::Comes => put(rt, steps, Step::Comes),
        Does::Sends(seat, bytes) => {
            let bytes = bytes.to_vec(alloc).expect(rt, "memory for bytes");
            put(rt, steps, Step::Sends(seat, bytes));
        }
        Does::Goes(seat) => put(rt, steps, Step::Goes(seat)),
        Does::Clogs(seat) => put(rt, steps, Step::Clogs(seat)),
        Does::Clears(seat) => put(rt, steps, Step::Clears(seat)),
        Does::Rests(rounds) => put_rests(rt, steps, rounds),
    }
}

fn put_rests(rt: &impl Abort, steps: &mut Vec<Step>, rounds: u16) {
    for _ in 0..rounds {
        put(rt, steps, Step::Rests);
    }
}

fn put(rt: &impl Abort, steps: &mut Vec<Step>, step: Step) {
    assert!(rt; steps.push(step).is_ok(), "memory for steps");
}

/// A session in which the clients do this. It ends behind the last step, if not before.
pub fn served<R: Threads + Wait + Sync + Abort>(
    rt: &R,
    alloc: Global,
    steps: Vec<Step>,
    given: &Given,
) -> Session<Watch> {
    let watch = Watch {
        looks: 0,
        most: 0,
        full_at: given.full_at,
    };
    served_by(rt, alloc, steps, given, watch)
}

/// Such a session with another lookout.
pub fn served_by<B: Lookout + Send, R: Threads + Wait + Sync + Abort>(
    rt: &R,
    alloc: Global,
    steps: Vec<Step>,
    given: &Given,
    lookout: B,
) -> Session<B> {
    let failing = vec![in alloc; given.talks].expect(rt, "memory for a call");
    let talks = ListTalks::new(alloc, steps, given.most.max(1), given.room, failing);
    let mut talks = talks.expect(rt, "memory for talks");
    let mut port = port_of(rt, alloc, given.port);
    let mut rig = Rig {
        pace: ListPace::new(given.late.clamp(0, MOMENT_MAX)),
        lookout,
    };
    let run = run_on(rt, alloc, given, &mut port, &mut talks, &mut rig);
    Session {
        run,
        talks,
        lookout: rig.lookout,
    }
}

// A port that nothing comes to, of which this call fails.
fn port_of(rt: &impl Abort, alloc: Global, failing: (u8, u64)) -> ListPort {
    let failing = vec![in alloc; failing].expect(rt, "memory for a call");
    ListPort::new(alloc, Vec::new(alloc), 500, failing).expect(rt, "memory for a port")
}

fn run_on<B: Lookout + Send, R: Threads + Wait + Sync + Abort>(
    rt: &R,
    alloc: Global,
    given: &Given,
    port: &mut ListPort,
    talks: &mut ListTalks,
    rig: &mut Rig<ListPace, B>,
) -> ServeRun {
    let terms = Terms {
        may_end: given.may_end,
        ends_at: given.ends_at,
    };
    let events = given.events.clamp(1, 524_288);
    let run = serve_run(
        rt,
        alloc,
        &config(),
        0,
        events,
        HERE,
        terms,
        port,
        talks,
        rig,
    );
    run.expect(rt, "memory for a run")
}
