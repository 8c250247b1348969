//! A source in memory.

ghost use Rattle.std.specs.Prelude.{◌<◌, ◌≤◌, length};

use crate::failing::{READ, fails_at};
use crate::{Source, Taken};

/// A source that holds its bytes and tells them. It counts its reads from 1, and those fail whose
/// numbers are in the list that it was made with; no other read fails. Its counts of reads and of
/// faults stay at their type's last value.
#[derive(Debug, Drop)]
pub struct BytesSource {
    bytes: Vec<u8>,
    given: usize,
    most: usize,
    failing: Vec<(u8, u64)>,
    reads: u64,
    faults: u64,
    ghost within: { given ≤ length bytes.items },
    ghost positive: { 0 < most },
}

impl BytesSource {
    ghost use Rattle.std.specs.Prelude.{◌≡◌, ◌↔◌, []};
    ghost use Rattle.lk_outside.specs.BytesSource.{rest_of, most_of, failing_of, reads_of, faults_of, IsQuietSource};

    /// A source that gives `bytes`, at most `most` of them a read. The reads fail whose pairs of
    /// `READ` and their number are in `failing`. Waits: no. Memory: none.
    pub fn new(bytes: Vec<u8>, most: usize, failing: Vec<(u8, u64)>) -> Self
        requires { 0 < most }
        ensures rest { rest_of result ≡ bytes.items }
        ensures most { most_of result ≡ most }
        ensures failing { failing_of result ≡ failing.items }
        ensures unread { reads_of result ≡ 0 }
        ensures faultless { faults_of result ≡ 0 }
        ensures quiet { IsQuietSource result ↔ (failing.items ≡ []) }
    {
        BytesSource {
            bytes,
            given: 0,
            most,
            failing,
            reads: 0,
            faults: 0,
        }
    }

    /// The bytes that no read has taken.
    pub fn rest(&self) -> &[u8]
        ensures { result.now ≡ rest_of self.now }
    {
        &self.bytes[self.given..]
    }

    /// How many reads have failed.
    pub fn fault_count(&self) -> u64
        ensures { result ≡ faults_of self.now }
    {
        self.faults
    }
}

impl Source for BytesSource {
    ghost use Rattle.std.specs.Prelude.{◌≡◌, ◌↔◌, ◌+◌, ◌-◌, ◌^◌, min};
    ghost use Rattle.lk_outside.specs.Failing.{FailsAt};
    ghost use Rattle.lk_outside.specs.Source.{Gives, KeepsRest, HasReadCause, IfGot};
    ghost use Rattle.lk_outside.specs.BytesSource.{seen_of, rest_of, most_of, failing_of, reads_of, next_read_of, faults_of, IsQuietSource};

    ghost seen = { seen_of };

    fn read(&mut self, buf: &mut [u8]) -> Taken
        requires { 0 < length buf.old }
        ensures bytes { Gives (seen_of self.old).told (seen_of self.new).told buf.new result }
        ensures rest { KeepsRest (seen_of self.old).told buf.old buf.new result }
        ensures cause { HasReadCause (faults_of self.old) (faults_of self.new) result }

        // Which read fails, and how much another one gives.
        ensures failing { (result ≡ Taken.Failed)
            ↔ FailsAt (failing_of self.old) 0 (next_read_of self.old) }
        ensures amount { IfGot result
            (λ n. n ≡ min (length buf.new) (min (most_of self.old) (length (rest_of self.old)))) }

        ensures counted { reads_of self.new ≡ next_read_of self.old }
        ensures fault { result ≡ Taken.Failed
            → faults_of self.new ≡ min (faults_of self.old + 1) (2 ^ 64 - 1) }
        ensures kept_most { most_of self.new ≡ most_of self.old }
        ensures kept_failing { failing_of self.new ≡ failing_of self.old }

        // With an empty list no read fails.
        ensures quiet { IsQuietSource self.old → IsQuietSource self.new }
        ensures works { IsQuietSource self.old → ¬ (result ≡ Taken.Failed) }
    {
        self.reads = self.reads.saturating_add(1);
        if fails_at(&self.failing, READ, self.reads) {
            self.faults = self.faults.saturating_add(1);
            return Taken::Failed;
        }
        let rest = self.rest();
        if rest.is_empty() {
            return Taken::End;
        }
        let count = buf.len().min(self.most.min(rest.len()));
        buf[..count].copy_from_slice(&rest[..count]);
        self.given += count;
        Taken::Got(count)
    }
}
