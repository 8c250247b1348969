//! A port in memory.

ghost use Rattle.std.specs.Prelude.{◌≡◌, ◌≤◌, All, length};
ghost use Rattle.std.proofs.Props.{props};
ghost use Rattle.std.specs.Vec.{vec_capacity};
ghost use Rattle.lk_outside.specs.Arrivals.{taken_by};
ghost use Rattle.lk_outside.specs.Coming.{IsToCome};

use crate::copies::copied;
use crate::failing::{BIND, RECEIVE, SEND, fails_at};
use crate::{Arrival, Bound, Port, Posted};
use arrayvec::ArrayVec;
use lk_base::{Endpoint, Gate, Wire};
use std::alloc::{AllocError, Global};

// The most bytes that a post holds.
const MOST: usize = 513;

/// A datagram that was posted.
#[derive(Debug, Drop)]
pub struct Post {
    pub gate: Gate,
    pub to: Endpoint,
    pub bytes: Wire,
}

/// A port that holds its arrivals and the datagrams posted, and tells them. It answers its arrivals in
/// order, and then that nothing will come any more. It counts its binds, its receives and its sends
/// from 1 each, and those fail whose numbers are in the list that it was made with; a receive fails too
/// where a datagram comes next on a gate that isn't bound, and a send where no room is left or the
/// datagram has more than 513 bytes. No other call fails, and no datagram is dropped. Its counts of
/// calls and of faults stay at their type's last value.
#[derive(Debug, Drop)]
pub struct ListPort {
    arrivals: Vec<Arrival>,
    taken: usize,
    posts: Vec<Post>,
    room: usize,
    gates: ArrayVec<Endpoint, 4>,
    failing: Vec<(u8, u64)>,
    binds: u64,
    receives: u64,
    sends: u64,
    faults: u64,
    ghost within: { taken ≤ length arrivals.items },
    ghost coming: { All IsToCome arrivals.items } by { Prim.hlevel props },
    ghost few: { length posts.items ≤ room },
    ghost reserved: { room ≤ vec_capacity posts },
}

impl ListPort {
    ghost use Rattle.std.specs.Prelude.{◌≡◌, ◌↔◌, ◌≤◌, [], drop, length, IsTrue, IfOk};
    ghost use Rattle.lk_outside.specs.Coming.{arrivals_in, BeginsAstray};
    ghost use Rattle.lk_outside.specs.ListPort.{rest_of, given_of, posts_of, contents_of, bound_of, room_of, failing_of, binds_of, receives_of, sends_of, faults_of, IsQuietPort};

    /// A port without gates that gives `arrivals` and has room for `room` posts in all. The calls fail
    /// whose pairs of `BIND`, `RECEIVE` or `SEND` and their number are in `failing`. The only error is
    /// want of memory. Waits: no. Memory: the room; no other call takes any.
    pub fn new(
        alloc: Global,
        arrivals: Vec<Arrival>,
        room: usize,
        failing: Vec<(u8, u64)>,
    ) -> Result<Self, AllocError>
        requires { All IsToCome arrivals.items }
        ensures contents { IfOk result (λ port. contents_of port
            ≡ record { left = arrivals_in arrivals.items; given = []; posted = [] }) }
        ensures room { IfOk result (λ port. room_of port ≡ room) }
        ensures failing { IfOk result (λ port. failing_of port ≡ failing.items) }
        ensures unbound { IfOk result (λ port. bound_of port ≡ []) }
        ensures no_binds { IfOk result (λ port. binds_of port ≡ 0) }
        ensures no_receives { IfOk result (λ port. receives_of port ≡ 0) }
        ensures no_sends { IfOk result (λ port. sends_of port ≡ 0) }
        ensures faultless { IfOk result (λ port. faults_of port ≡ 0) }
        ensures quiet { IfOk result (λ port. IsQuietPort port ↔ (failing.items ≡ [])) }
    {
        Ok(ListPort {
            arrivals,
            taken: 0,
            posts: Vec::with_capacity(alloc, room)?,
            room,
            gates: ArrayVec::new(),
            failing,
            binds: 0,
            receives: 0,
            sends: 0,
            faults: 0,
        })
    }

    /// The arrivals that no receive has taken.
    pub fn rest(&self) -> &[Arrival]
        ensures { result.now ≡ rest_of self.now }
    {
        &self.arrivals[self.taken..]
    }

    /// The arrivals given, idle ones among them.
    pub fn given(&self) -> &[Arrival]
        ensures { result.now ≡ given_of self.now }
    {
        &self.arrivals[..self.taken]
    }

    /// The datagrams posted so far.
    pub fn posts(&self) -> &[Post]
        ensures { result.now ≡ posts_of self.now }
    {
        &self.posts
    }

    /// The local endpoints of the gates bound.
    pub fn gates(&self) -> &[Endpoint]
        ensures { result.now ≡ bound_of self.now }
    {
        &self.gates
    }

    /// How many calls have failed.
    pub fn fault_count(&self) -> u64
        ensures { result ≡ faults_of self.now }
    {
        self.faults
    }

    // Whether a datagram comes next on a gate that isn't bound.
    fn is_next_astray(&self) -> bool
        ensures { IsTrue result
            ↔ BeginsAstray (length (bound_of self.now)) (contents_of self.now).left }
    {
        match self.arrivals.get(self.taken) {
            Some(Arrival::Datagram { gate, .. }) => usize::from(gate.0) >= self.gates.len(),
            _ => false,
        }
    }
}

impl Port for ListPort {
    ghost use Rattle.std.specs.Prelude.{◌≡◌, ◌↔◌, ◌⊎◌, ◌+◌, ◌-◌, ◌^◌, ◌<◌, ◌≤◌, min, length};
    ghost use Rattle.lk_outside.specs.Arrivals.{IsAnswer, PostValue};
    ghost use Rattle.lk_outside.specs.Coming.{BeginsAstray};
    ghost use Rattle.lk_outside.specs.Failing.{FailsAt};
    ghost use Rattle.lk_outside.specs.Port.{Binds, HasBindCause, Receives, HasReceiveCause, Posts, HasSendCause};
    ghost use Rattle.lk_outside.specs.ListPort.{seen_of, contents_of, bound_of, room_of, room_left_of, failing_of, binds_of, next_bind_of, receives_of, next_receive_of, sends_of, next_send_of, faults_of, IsQuietPort};

    ghost seen = { seen_of };

    fn bind(&mut self, gates: &[Endpoint]) -> Bound
        requires some { 0 < length gates.now }
        requires few { length gates.now ≤ 4 }
        ensures gates { Binds (bound_of self.old) (bound_of self.new) gates.now result }
        ensures contents { (seen_of self.new).told ≡ (seen_of self.old).told }
        ensures cause { HasBindCause (faults_of self.old) (faults_of self.new) result }

        // Which bind fails.
        ensures failing { (result ≡ Bound.Failed)
            ↔ FailsAt (failing_of self.old) 0 (next_bind_of self.old) }

        ensures counted { binds_of self.new ≡ next_bind_of self.old }
        ensures fault { result ≡ Bound.Failed
            → faults_of self.new ≡ min (faults_of self.old + 1) (2 ^ 64 - 1) }
        ensures kept_receives { receives_of self.new ≡ receives_of self.old }
        ensures kept_sends { sends_of self.new ≡ sends_of self.old }
        ensures kept_room { room_of self.new ≡ room_of self.old }
        ensures kept_failing { failing_of self.new ≡ failing_of self.old }

        // With an empty list no bind fails.
        ensures quiet { IsQuietPort self.old → IsQuietPort self.new }
        ensures works { IsQuietPort self.old → ¬ (result ≡ Bound.Failed) }
    {
        self.binds = self.binds.saturating_add(1);
        if fails_at(&self.failing, BIND, self.binds) {
            self.faults = self.faults.saturating_add(1);
            return Bound::Failed;
        }
        self.gates = copied(gates);
        Bound::Ready
    }

    fn receive(&mut self, _until: i64) -> Arrival
        requires { 0 < length (bound_of self.old) }
        ensures answer { IsAnswer (length (bound_of self.old)) result }
        ensures contents { Receives (seen_of self.old).told (seen_of self.new).told result }
        ensures gates { bound_of self.new ≡ bound_of self.old }
        ensures cause { HasReceiveCause (faults_of self.old) (faults_of self.new) result }

        // Which receive fails.
        ensures failing { (result ≡ Arrival.Failed)
            ↔ (FailsAt (failing_of self.old) 1 (next_receive_of self.old)
            ⊎ BeginsAstray (length (bound_of self.old)) (contents_of self.old).left) }

        ensures counted { receives_of self.new ≡ next_receive_of self.old }
        ensures fault { result ≡ Arrival.Failed
            → faults_of self.new ≡ min (faults_of self.old + 1) (2 ^ 64 - 1) }
        ensures kept_binds { binds_of self.new ≡ binds_of self.old }
        ensures kept_sends { sends_of self.new ≡ sends_of self.old }
        ensures kept_room { room_of self.new ≡ room_of self.old }
        ensures kept_failing { failing_of self.new ≡ failing_of self.old }

        // With an empty list a receive fails only where a datagram comes next on a gate that isn't bound.
        ensures quiet { IsQuietPort self.old → IsQuietPort self.new }
        ensures works { IsQuietPort self.old
            → ¬ (BeginsAstray (length (bound_of self.old)) (contents_of self.old).left)
            → ¬ (result ≡ Arrival.Failed) }
    {
        self.receives = self.receives.saturating_add(1);
        if self.is_next_astray() || fails_at(&self.failing, RECEIVE, self.receives) {
            self.faults = self.faults.saturating_add(1);
            return Arrival::Failed;
        }
        if self.taken == self.arrivals.len() {
            return Arrival::Closed;
        }
        let arrival = same_arrival(&self.arrivals[self.taken]);
        self.taken += 1;
        arrival
    }

    fn send(&mut self, gate: Gate, to: Endpoint, bytes: &[u8]) -> Posted
        requires { gate.0 < length (bound_of self.old) }
        ensures contents { Posts (seen_of self.old).told (seen_of self.new).told
            (record { gate = gate; to = to; bytes = bytes.now }) result }
        ensures gates { bound_of self.new ≡ bound_of self.old }
        ensures cause { HasSendCause (faults_of self.old) (faults_of self.new) result }

        // Which send fails, and that no datagram is dropped.
        ensures failing { (result ≡ Posted.Failed)
            ↔ (FailsAt (failing_of self.old) 2 (next_send_of self.old)
            ⊎ ((room_left_of self.old ≡ 0) ⊎ (513 < length bytes.now))) }
        ensures never_dropped { ¬ (result ≡ Posted.Dropped) }

        ensures counted { sends_of self.new ≡ next_send_of self.old }
        ensures fault { result ≡ Posted.Failed
            → faults_of self.new ≡ min (faults_of self.old + 1) (2 ^ 64 - 1) }
        ensures kept_binds { binds_of self.new ≡ binds_of self.old }
        ensures kept_receives { receives_of self.new ≡ receives_of self.old }
        ensures kept_room { room_of self.new ≡ room_of self.old }
        ensures kept_failing { failing_of self.new ≡ failing_of self.old }

        // With an empty list a send fails only where no room is left or the datagram is too long.
        ensures quiet { IsQuietPort self.old → IsQuietPort self.new }
        ensures works { IsQuietPort self.old → 0 < room_left_of self.old → length bytes.now ≤ 513
            → ¬ (result ≡ Posted.Failed) }
    {
        self.sends = self.sends.saturating_add(1);
        let left = self.room - self.posts.len();
        if left == 0 || bytes.len() > MOST || fails_at(&self.failing, SEND, self.sends) {
            self.faults = self.faults.saturating_add(1);
            return Posted::Failed;
        }
        let bytes = copied(bytes);
        self.posts.push(Post { gate, to, bytes }).unwrap();
        Posted::Sent
    }
}

// The same arrival once more.
fn same_arrival(arrival: &Arrival) -> Arrival
    ensures { taken_by result ≡ taken_by arrival.now }
{
    match arrival {
        Arrival::Datagram {
            gate,
            from,
            bytes,
            now,
        } => Arrival::Datagram {
            gate: *gate,
            from: *from,
            bytes: copied(bytes),
            now: *now,
        },
        Arrival::Idle(now) => Arrival::Idle(*now),
        Arrival::Closed => Arrival::Closed,
        Arrival::Failed => Arrival::Failed,
    }
}
