//! The command `load`: how much a node sends and shows for generated events.

ghost use Rattle.std.specs.Prelude.{◌≡◌, ◌≤◌, [], OnOk, OnErr};
ghost use Rattle.lk_outside.specs.Faults.{Rose};
ghost use Rattle.lk_outside.specs.Sink.{Appends};
ghost use Rattle.lk_outside.specs.Transfer.{AppendsPrefix};
ghost use Rattle.link_commands.specs.Loading.{told_of};
ghost use Rattle.link_commands.specs.Statuses.{EndsLoad, IfNothingWritten};

use crate::counts::{Counts, count_of};
use crate::outlet::{Outlet, SinkFailed};
use crate::replay_lines::hand_state;
use crate::status::Status;
use client_state::State;
use link_node::{Node, Sends, runs_go_on};
use link_text::{LineBuf, LoadEvents, write_load_line};
use link_words::{WordsFault, load_numbers};
use lk_outside::Sink;
use std::alloc::{AllocError, Global};

/// The moment at which the node is opened, in microseconds.
const OPENING: i64 = 1_000_000;

/// Runs a node through the events that the words ask for, and then writes to `out` how much there was and the state that was published
/// last. No event is kept.
///
/// Waits: in the sink's calls alone. Memory: what reads the words, the node, its list of datagrams and the outlet, all of it before the
/// first write.
pub fn load_main<K: Sink>(alloc: Global, words: &[String], out: &mut K) -> Status
    ensures ends { EndsLoad words.now (K.seen out.old) (K.seen out.new) result }

    // The sink isn't called.
    ensures untouched { result ≡ Status.Words → out.new ≡ out.old }
    ensures unwritten { IfNothingWritten result (out.new ≡ out.old) }
{
    let numbers = match load_numbers(alloc, words) {
        Ok(numbers) => numbers,
        Err(WordsFault::NotTaken) => return Status::Words,
        Err(WordsFault::Memory) => return Status::Memory,
    };
    let Ok(mut load) = Load::new(alloc, numbers.seed) else {
        return Status::Memory;
    };
    let Ok(mut outlet) = Outlet::new(alloc) else {
        return Status::Memory;
    };
    let counts = load.take_events(numbers.count);
    match write_load(&counts, &load.node.state(), &mut outlet, out) {
        Ok(()) => Status::Done,
        Err(SinkFailed) => Status::Sink,
    }
}

/// A load on its way: its events, the node that takes them, and what follows from one of them.
#[derive(Drop)]
struct Load {
    events: LoadEvents,
    node: Node,
    sends: Sends,
}

impl Load {
    ghost use Rattle.std.specs.Prelude.{◌≡◌, ◌≤◌, ◌<◌, ◌+◌, ℕ, IfOk};
    ghost use Rattle.link_node.specs.Standing.{StandsFor, app_of, gates_of};
    ghost use Rattle.link_text.specs.Load.{load_opened};
    ghost use Rattle.link_commands.specs.Loading.{NodeHasTaken};

    // The load of a seed, of which no event was taken yet.
    fn new(alloc: Global, seed: u64) -> Result<Load, AllocError>
        ensures run { IfOk result (λ load. load.events ≡ record { seed = seed; made = 0 }) }
        ensures stands { IfOk result (λ load. StandsFor load.node (load_opened seed)) }
        ensures gates { IfOk result (λ load. gates_of load.node ≡ 1) }
        ensures app { IfOk result (λ load. app_of load.node ≡ 0) }
    {
        let events = LoadEvents::new(seed);
        let node = Node::new(alloc, &events.config(), OPENING)?;
        let sends = Sends::new(alloc)?;
        Ok(Load {
            events,
            node,
            sends,
        })
    }

    // Takes the first events, so many of them, and says how much there was with the opening state.
    fn take_events(&mut self, count: u64) -> Counts
        requires few { count ≤ 524_288 }
        requires run { self.old.events.made ≡ 0 }
        requires stands { StandsFor self.old.node (load_opened self.old.events.seed) }
        requires gates { gates_of self.old.node ≡ 1 }
        requires app { app_of self.old.node ≡ 0 }
        ensures taken { NodeHasTaken self.old.events.seed self.new.events self.new.node result }
        ensures events { result.events ≡ count }
    {
        let mut counts = Counts {
            events: 0,
            states: 1,
            sends: 0,
        };
        while counts.events < count {
            self.take_event(&mut counts);
        }
        counts
    }

    // Takes the next event.
    fn take_event(&mut self, counts: &mut Counts)
        requires few { counts.old.events < 524_288 }
        requires taken { (seed : ℕ) × NodeHasTaken seed self.old.events self.old.node counts.old }
        ensures taken { (seed : ℕ) → NodeHasTaken seed self.old.events self.old.node counts.old
            → NodeHasTaken seed self.new.events self.new.node counts.new }
        ensures events { counts.new.events ≡ counts.old.events + 1 }
    {
        // A law, for the proof: a run goes on from where its first events have led.
        runs_go_on();
        let event = self.events.next(&self.node.state());
        self.sends.clear();
        let change = self.node.step(&event, &mut self.sends);
        counts.events += 1;
        counts.states += count_of(change);
        counts.sends += self.sends.list().len() as u64;
    }
}

// Writes how much there was and the state that was published last, through an outlet that keeps nothing yet.
fn write_load<K: Sink>(
    counts: &Counts,
    state: &State,
    outlet: &mut Outlet,
    out: &mut K,
) -> Result<(), SinkFailed>
    requires some { 1 ≤ counts.now.states }
    requires empty { outlet.old.kept.items ≡ [] }
    ensures whole { OnOk result (Appends (K.seen out.old).told (told_of counts.now state.now) (K.seen out.new).told) }
    ensures part { OnErr result (AppendsPrefix (K.seen out.old).told (told_of counts.now state.now) (K.seen out.new).told) }
    ensures quiet { OnOk result ((K.seen out.new).faults ≡ (K.seen out.old).faults) }
    ensures cause { OnErr result (Rose (K.seen out.old).faults (K.seen out.new).faults) }
{
    let mut line = LineBuf::new();
    write_load_line(&mut line, counts.events, counts.states, counts.sends);
    outlet.put_line(out, line.as_slice())?;
    hand_state(2, counts.states - 1, state, &mut line, outlet, out)?;
    outlet.flush(out)?;
    Ok(())
}
