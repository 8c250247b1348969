//! The queue of the applications' commits: its items, its rule, and the moves of its passes.
ghost use Rattle.std.specs.Prelude.{◌≡◌, true, IfOk, MatchOption};
ghost use Rattle.crossbeam_queue.specs.Fifo.{Held};
ghost use Rattle.crossbeam_queue.specs.Passes.{view, IsSamePass, IsPassOf, ruled_capacity};
ghost use Rattle.audio_handoff.specs.Cell.{Grows};
ghost use Rattle.link_shared.specs.Queue.{Pushed, Popped, SeesNothing, SeesRest, SeesHeard, pushing_part, popping_part, shown_part, after_hearing, whole_of, knower, opener};

use client_state::Commit;
use crossbeam_queue::protocol::{Join, Lesson, Outcome, Protocol, Split};
use crossbeam_queue::{Pass, RuledArrayQueue};
use std::alloc::{AllocError, Global};
use std::collections::LinkedList;
use std::sync::Wait;

/// What the queue holds.
#[derive(Clone, Copy, Debug, PartialEq, Eq)]
pub enum Item {
    Commit(Commit),
    /// The network thread is to end.
    Quit,
}

/// What a pass may do, and what it knows of the commits and the quits that went in and out. No value of it is made.
pub struct Hand {
    pub pushes: bool,
    pub pops: bool,
    /// A beginning of the commits pushed: all of them, where it pushes.
    pub pushed: LinkedList<Commit>,
    /// All commits popped, where it pops.
    pub popped: LinkedList<Commit>,
    /// What the pass that was heard last knew of the commits pushed.
    pub heard: LinkedList<Commit>,
    pub quits_pushed: u64,
    pub quits_popped: u64,
}

/// The rule: what was pushed is what was popped and then what the queue holds.
pub struct InOrder;

impl Protocol<Item, Hand> for InOrder {
    ghost use Rattle.link_shared.specs.Queue.{IsKept, opener};

    ghost holds = { IsKept };

    ghost first = { opener };
}

/// The two ends are parted.
pub struct Part;

impl Split<Hand> for Part {
    ghost left = { pushing_part };

    ghost right = { popping_part };
}

/// A further pass, with what this one knows of the commits pushed.
pub struct Show;

impl Split<Hand> for Show {
    ghost left = { λ hand. hand };

    ghost right = { shown_part };
}

/// A pass takes in what another one knows of the commits pushed.
pub struct Hear;

impl Join<Hand> for Hear {
    ghost use Rattle.std.specs.Prelude.{[]};

    ghost both = { after_hearing };

    ghost spent = { knower [] };
}

/// The popping pass takes in the pushing one.
pub struct Whole;

impl Join<Hand> for Whole {
    ghost use Rattle.std.specs.Prelude.{[]};

    ghost both = { whole_of };

    ghost spent = { knower [] };
}

/// A push, by the pass that pushes. Where the queue is full, that pass learns nothing.
pub struct Push;

impl Outcome<Item, Hand> for Push {
    ghost then = { Pushed };
}

impl Lesson<Item, Hand> for Push {
    ghost fact = { SeesNothing };
}

/// A pop, by the pass that pops. Where the queue is empty, a pass with both ends has popped all that was pushed.
pub struct Pop;

impl Outcome<Item, Hand> for Pop {
    ghost then = { Popped };
}

impl Lesson<Item, Hand> for Pop {
    ghost fact = { SeesRest };
}

/// What was heard by the pass that pushes is a beginning of what it knows.
pub struct Heard;

impl Lesson<Item, Hand> for Heard {
    ghost fact = { SeesHeard };
}

/// How many items it has room for.
pub const PLACES: usize = 256;

pub type Queue = RuledArrayQueue<Item, Hand, InOrder>;

pub type QueuePass = Pass<Item, Hand>;

/// An empty queue, with the pass that pushes and the pass that pops.
/// Waits: no. Memory: the queue.
pub(crate) fn open(alloc: Global) -> Result<(Queue, QueuePass, QueuePass), AllocError>
    ensures places { IfOk result (λ t. ruled_capacity t.0 ≡ 256) }
    ensures passes { IfOk result (λ t. IsPassOf t.0 t.1 × IsPassOf t.0 t.2) }
    ensures ends { IfOk result (λ t. (view t.1 ≡ pushing_part opener) × (view t.2 ≡ popping_part opener)) }
{
    let (queue, mut pushing) = Queue::ruled(alloc, PLACES)?;
    let popping = queue.another::<Part>(&mut pushing);
    Ok((queue, pushing, popping))
}

/// A further pass, with what this one knows of the commits pushed.
/// Waits: no. Memory: none.
pub(crate) fn show_pass(queue: &Queue, pass: &mut QueuePass) -> QueuePass
    requires queue { IsPassOf queue.now pass.old }
    ensures queue { IsSamePass pass.old pass.new × IsPassOf queue.now result }
    ensures same { view pass.new ≡ view pass.old }
    ensures shown { view result ≡ shown_part (view pass.old) }
{
    queue.another::<Show>(pass)
}

/// Takes the oldest item. Where there is none, the queue was empty at a step of the call.
/// Waits: for a place's last user. Memory: none.
pub(crate) fn pop_item<R: Wait>(rt: &R, queue: &Queue, pass: &mut QueuePass) -> Option<Item>
    requires queue { IsPassOf queue.now pass.old }
    requires pops { (view pass.old).pops ≡ true }
    ensures queue { IsSamePass pass.old pass.new }
    ensures popped { MatchOption result
        ((view pass.new ≡ view pass.old) × Held 0 (SeesRest (view pass.old)))
        (λ item. Popped (view pass.old) item (view pass.new)) }
{
    queue.pop_as::<Pop, R>(rt, pass)
}

/// Lets the pass that pushes take in what another pass knows: a beginning of what it knows itself.
/// Waits: no. Memory: none.
pub(crate) fn hear_pass(queue: &Queue, own: &mut QueuePass, other: QueuePass)
    requires queue { IsPassOf queue.now own.old × IsPassOf queue.now other }
    requires pushes { (view own.old).pushes ≡ true }
    ensures queue { IsSamePass own.old own.new }
    ensures heard { view own.new ≡ after_hearing (view own.old) (view other) }
    ensures known { Grows (view other).pushed (view own.old).pushed }
{
    queue.absorb::<Hear>(own, other);
    queue.learn_as::<Heard>(own);
}

/// Lets the pass that pops take in the pass that pushes.
/// Waits: no. Memory: none.
pub(crate) fn join_ends(queue: &Queue, popping: &mut QueuePass, pushing: QueuePass)
    requires queue { IsPassOf queue.now popping.old × IsPassOf queue.now pushing }
    requires pops { (view popping.old).pops ≡ true }
    requires pushes { (view pushing).pushes ≡ true }
    ensures queue { IsSamePass popping.old popping.new }
    ensures whole { view popping.new ≡ whole_of (view popping.old) (view pushing) }
{
    queue.absorb::<Whole>(popping, pushing);
}
