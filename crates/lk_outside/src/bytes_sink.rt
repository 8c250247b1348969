//! A sink in memory.

ghost use Rattle.std.specs.Prelude.{◌<◌, ◌≤◌, length};
ghost use Rattle.std.specs.Vec.{vec_capacity};

use crate::failing::{WRITE, fails_at};
use crate::{Put, Sink};
use std::alloc::{AllocError, Global};

/// A sink that holds the bytes written and tells them. It counts its writes from 1, and those fail
/// whose numbers are in the list that it was made with, or for which no room is left; no other write
/// fails. Its counts of writes and of faults stay at their type's last value.
#[derive(Debug, Drop)]
pub struct BytesSink {
    bytes: Vec<u8>,
    room: usize,
    most: usize,
    failing: Vec<(u8, u64)>,
    writes: u64,
    faults: u64,
    ghost within: { length bytes.items ≤ room },
    ghost reserved: { room ≤ vec_capacity bytes },
    ghost positive: { 0 < most },
}

impl BytesSink {
    ghost use Rattle.std.specs.Prelude.{◌≡◌, ◌↔◌, [], IfOk};
    ghost use Rattle.lk_outside.specs.BytesSink.{bytes_of, room_of, most_of, failing_of, writes_of, faults_of, IsQuietSink};

    /// An empty sink with room for `room` bytes in all, which takes at most `most` of them a write.
    /// The writes fail whose pairs of `WRITE` and their number are in `failing`. The only error is
    /// want of memory. Waits: no. Memory: the room; a write takes none.
    pub fn new(
        alloc: Global,
        room: usize,
        most: usize,
        failing: Vec<(u8, u64)>,
    ) -> Result<Self, AllocError>
        requires { 0 < most }
        ensures empty { IfOk result (λ sink. bytes_of sink ≡ []) }
        ensures room { IfOk result (λ sink. room_of sink ≡ room) }
        ensures most { IfOk result (λ sink. most_of sink ≡ most) }
        ensures failing { IfOk result (λ sink. failing_of sink ≡ failing.items) }
        ensures unwritten { IfOk result (λ sink. writes_of sink ≡ 0) }
        ensures faultless { IfOk result (λ sink. faults_of sink ≡ 0) }
        ensures quiet { IfOk result (λ sink. IsQuietSink sink ↔ (failing.items ≡ [])) }
    {
        Ok(BytesSink {
            bytes: Vec::with_capacity(alloc, room)?,
            room,
            most,
            failing,
            writes: 0,
            faults: 0,
        })
    }

    /// The bytes written so far.
    pub fn bytes(&self) -> &[u8]
        ensures { result.now ≡ bytes_of self.now }
    {
        &self.bytes
    }

    /// How many writes have failed.
    pub fn fault_count(&self) -> u64
        ensures { result ≡ faults_of self.now }
    {
        self.faults
    }
}

impl Sink for BytesSink {
    ghost use Rattle.std.specs.Prelude.{◌≡◌, ◌↔◌, ◌⊎◌, ◌+◌, ◌-◌, ◌^◌, min};
    ghost use Rattle.lk_outside.specs.Failing.{FailsAt};
    ghost use Rattle.lk_outside.specs.Sink.{Accepts, HasWriteCause, IfTook};
    ghost use Rattle.lk_outside.specs.BytesSink.{seen_of, room_of, room_left_of, most_of, failing_of, writes_of, next_write_of, faults_of, IsQuietSink};

    ghost seen = { seen_of };

    fn write(&mut self, bytes: &[u8]) -> Put
        requires { 0 < length bytes.now }
        ensures bytes { Accepts (seen_of self.old).told (seen_of self.new).told bytes.now result }
        ensures cause { HasWriteCause (faults_of self.old) (faults_of self.new) result }

        // Which write fails, and how much another one takes.
        ensures failing { (result ≡ Put.Failed)
            ↔ (FailsAt (failing_of self.old) 0 (next_write_of self.old)
            ⊎ (room_left_of self.old ≡ 0)) }
        ensures amount { IfTook result
            (λ n. n ≡ min (length bytes.now) (min (most_of self.old) (room_left_of self.old))) }

        ensures counted { writes_of self.new ≡ next_write_of self.old }
        ensures fault { result ≡ Put.Failed
            → faults_of self.new ≡ min (faults_of self.old + 1) (2 ^ 64 - 1) }
        ensures kept_room { room_of self.new ≡ room_of self.old }
        ensures kept_most { most_of self.new ≡ most_of self.old }
        ensures kept_failing { failing_of self.new ≡ failing_of self.old }

        // With an empty list a write fails only where no room is left.
        ensures quiet { IsQuietSink self.old → IsQuietSink self.new }
        ensures works { IsQuietSink self.old → 0 < room_left_of self.old → ¬ (result ≡ Put.Failed) }
    {
        self.writes = self.writes.saturating_add(1);
        let left = self.room - self.bytes.len();
        if left == 0 || fails_at(&self.failing, WRITE, self.writes) {
            self.faults = self.faults.saturating_add(1);
            return Put::Failed;
        }
        let count = bytes.len().min(self.most.min(left));
        self.bytes.extend_from_slice(&bytes[..count]).unwrap();
        Put::Took(count)
    }
}
