//! A talk in memory.

ghost use Rattle.std.specs.Prelude.{◌<◌, ◌≤◌, length};
ghost use Rattle.std.specs.Vec.{vec_capacity};

use crate::failing::{HEAR, LISTEN, SAY, fails_at};
use crate::{Bound, Put, Taken, Talk};
use lk_base::Endpoint;
use std::alloc::{AllocError, Global};

/// A talk that holds its client's bytes and those written, and tells both. It counts its calls of each kind from 1, and those fail whose
/// kinds and numbers are in the list that it was made with, and the writes for which no room is left; no other call fails. Its counts of
/// calls and of faults stay at their type's last value.
#[derive(Debug, Drop)]
pub struct ListTalk {
    bytes: Vec<u8>,
    given: usize,
    most: usize,
    written: Vec<u8>,
    room: usize,
    failing: Vec<(u8, u64)>,
    opened: Option<Endpoint>,
    listens: u64,
    reads: u64,
    writes: u64,
    faults: u64,
    ghost within: { given ≤ length bytes.items },
    ghost positive: { 0 < most },
    ghost fits: { length written.items ≤ room },
    ghost reserved: { room ≤ vec_capacity written },
}

impl ListTalk {
    ghost use Rattle.std.specs.Prelude.{◌≡◌, ◌↔◌, [], None, IfOk};
    ghost use Rattle.lk_outside.specs.ListTalk.{rest_of, bytes_of, opened_of, most_of, room_of, failing_of, listens_of, reads_of, writes_of, faults_of, IsQuietTalk};

    /// A talk that isn't opened, whose client sends `bytes`, at most `most` of them a read, and that has room for `room` bytes in all to
    /// the client. The calls fail whose pairs of kind (`LISTEN`, `HEAR`, `SAY`) and number are in `failing`. The only error is want of
    /// memory. Waits: no. Memory: the room; no other call takes any.
    pub fn new(
        alloc: Global,
        bytes: Vec<u8>,
        most: usize,
        room: usize,
        failing: Vec<(u8, u64)>,
    ) -> Result<Self, AllocError>
        requires { 0 < most }
        ensures rest { IfOk result (λ talk. rest_of talk ≡ bytes.items) }
        ensures empty { IfOk result (λ talk. bytes_of talk ≡ []) }
        ensures unopened { IfOk result (λ talk. opened_of talk ≡ None) }
        ensures most { IfOk result (λ talk. most_of talk ≡ most) }
        ensures room { IfOk result (λ talk. room_of talk ≡ room) }
        ensures failing { IfOk result (λ talk. failing_of talk ≡ failing.items) }
        ensures unasked { IfOk result (λ talk. (listens_of talk ≡ 0) × (reads_of talk ≡ 0) × (writes_of talk ≡ 0)) }
        ensures faultless { IfOk result (λ talk. faults_of talk ≡ 0) }
        ensures quiet { IfOk result (λ talk. IsQuietTalk talk ↔ (failing.items ≡ [])) }
    {
        Ok(ListTalk {
            bytes,
            given: 0,
            most,
            written: Vec::with_capacity(alloc, room)?,
            room,
            failing,
            opened: None,
            listens: 0,
            reads: 0,
            writes: 0,
            faults: 0,
        })
    }

    /// The client's bytes that no read has taken.
    pub fn rest(&self) -> &[u8]
        ensures { result.now ≡ rest_of self.now }
    {
        &self.bytes[self.given..]
    }

    /// The bytes written to the client so far.
    pub fn bytes(&self) -> &[u8]
        ensures { result.now ≡ bytes_of self.now }
    {
        &self.written
    }

    /// How many calls have failed.
    pub fn fault_count(&self) -> u64
        ensures { result ≡ faults_of self.now }
    {
        self.faults
    }
}

impl Talk for ListTalk {
    ghost use Rattle.std.specs.Prelude.{◌≡◌, ◌↔◌, ◌⊎◌, ◌+◌, ◌-◌, ◌^◌, min, IsSome};
    ghost use Rattle.lk_outside.specs.Failing.{FailsAt};
    ghost use Rattle.lk_outside.specs.Port.{HasBindCause};
    ghost use Rattle.lk_outside.specs.Sink.{Accepts, HasWriteCause, IfTook};
    ghost use Rattle.lk_outside.specs.Source.{Gives, HasReadCause, IfGot, KeepsRest};
    ghost use Rattle.lk_outside.specs.Talk.{Opens};
    ghost use Rattle.lk_outside.specs.ListTalk.{seen_of, rest_of, opened_of, most_of, room_of, room_left_of, failing_of, listens_of, next_listen_of, reads_of, next_read_of, writes_of, next_write_of, faults_of, IsQuietTalk};

    ghost seen = { seen_of };

    fn listen(&mut self, at: Endpoint) -> Bound
        ensures opened { Opens (opened_of self.old) (opened_of self.new) at result }
        ensures left { (seen_of self.new).left ≡ (seen_of self.old).left }
        ensures written { (seen_of self.new).written ≡ (seen_of self.old).written }
        ensures cause { HasBindCause (faults_of self.old) (faults_of self.new) result }

        // Which call fails.
        ensures failing { (result ≡ Bound.Failed) ↔ FailsAt (failing_of self.old) 0 (next_listen_of self.old) }

        ensures counted { listens_of self.new ≡ next_listen_of self.old }
        ensures others { (reads_of self.new ≡ reads_of self.old) × (writes_of self.new ≡ writes_of self.old) }
        ensures fault { result ≡ Bound.Failed → faults_of self.new ≡ min (faults_of self.old + 1) (2 ^ 64 - 1) }
        ensures kept { (most_of self.new ≡ most_of self.old) × (room_of self.new ≡ room_of self.old)
            × (failing_of self.new ≡ failing_of self.old) }

        // With an empty list no call to listen fails.
        ensures quiet { IsQuietTalk self.old → IsQuietTalk self.new }
        ensures works { IsQuietTalk self.old → ¬ (result ≡ Bound.Failed) }
    {
        self.listens = self.listens.saturating_add(1);
        if fails_at(&self.failing, LISTEN, self.listens) {
            self.faults = self.faults.saturating_add(1);
            return Bound::Failed;
        }
        self.opened = Some(at);
        Bound::Ready
    }

    fn read(&mut self, buf: &mut [u8]) -> Taken
        requires some { 0 < length buf.old }
        requires opened { IsSome (opened_of self.old) }
        ensures bytes { Gives (seen_of self.old).left (seen_of self.new).left buf.new result }
        ensures rest { KeepsRest (seen_of self.old).left buf.old buf.new result }
        ensures written { (seen_of self.new).written ≡ (seen_of self.old).written }
        ensures opened { opened_of self.new ≡ opened_of self.old }
        ensures cause { HasReadCause (faults_of self.old) (faults_of self.new) result }

        // Which read fails, and how much another one gives.
        ensures failing { (result ≡ Taken.Failed) ↔ FailsAt (failing_of self.old) 1 (next_read_of self.old) }
        ensures amount { IfGot result
            (λ n. n ≡ min (length buf.new) (min (most_of self.old) (length (rest_of self.old)))) }

        ensures counted { reads_of self.new ≡ next_read_of self.old }
        ensures others { (listens_of self.new ≡ listens_of self.old) × (writes_of self.new ≡ writes_of self.old) }
        ensures fault { result ≡ Taken.Failed → faults_of self.new ≡ min (faults_of self.old + 1) (2 ^ 64 - 1) }
        ensures kept { (most_of self.new ≡ most_of self.old) × (room_of self.new ≡ room_of self.old)
            × (failing_of self.new ≡ failing_of self.old) }

        // With an empty list no read fails.
        ensures quiet { IsQuietTalk self.old → IsQuietTalk self.new }
        ensures works { IsQuietTalk self.old → ¬ (result ≡ Taken.Failed) }
    {
        self.reads = self.reads.saturating_add(1);
        if fails_at(&self.failing, HEAR, self.reads) {
            self.faults = self.faults.saturating_add(1);
            return Taken::Failed;
        }
        let rest = self.rest();
        if rest.is_empty() {
            return Taken::End;
        }
        let count = buf.len().min(self.most.min(rest.len()));
        buf[..count].copy_from_slice(&rest[..count]);
        self.given += count;
        Taken::Got(count)
    }

    fn write(&mut self, bytes: &[u8]) -> Put
        requires some { 0 < length bytes.now }
        requires opened { IsSome (opened_of self.old) }
        ensures bytes { Accepts (seen_of self.old).written (seen_of self.new).written bytes.now result }
        ensures left { (seen_of self.new).left ≡ (seen_of self.old).left }
        ensures opened { opened_of self.new ≡ opened_of self.old }
        ensures cause { HasWriteCause (faults_of self.old) (faults_of self.new) result }

        // Which write fails, and how much another one takes.
        ensures failing { (result ≡ Put.Failed)
            ↔ (FailsAt (failing_of self.old) 2 (next_write_of self.old) ⊎ (room_left_of self.old ≡ 0)) }
        ensures amount { IfTook result (λ n. n ≡ min (length bytes.now) (room_left_of self.old)) }

        ensures counted { writes_of self.new ≡ next_write_of self.old }
        ensures others { (listens_of self.new ≡ listens_of self.old) × (reads_of self.new ≡ reads_of self.old) }
        ensures fault { result ≡ Put.Failed → faults_of self.new ≡ min (faults_of self.old + 1) (2 ^ 64 - 1) }
        ensures kept { (most_of self.new ≡ most_of self.old) × (room_of self.new ≡ room_of self.old)
            × (failing_of self.new ≡ failing_of self.old) }

        // With an empty list a write fails only where no room is left.
        ensures quiet { IsQuietTalk self.old → IsQuietTalk self.new }
        ensures works { IsQuietTalk self.old → 0 < room_left_of self.old → ¬ (result ≡ Put.Failed) }
    {
        self.writes = self.writes.saturating_add(1);
        let left = self.room - self.written.len();
        if left == 0 || fails_at(&self.failing, SAY, self.writes) {
            self.faults = self.faults.saturating_add(1);
            return Put::Failed;
        }
        let count = bytes.len().min(left);
        self.written.extend_from_slice(&bytes[..count]).unwrap();
        Put::Took(count)
    }
}
