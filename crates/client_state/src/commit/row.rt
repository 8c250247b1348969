//! A commit as a row of words, and back.

ghost use Rattle.std.specs.Prelude.{◌≡◌, ◌≤◌, Some, None, if◌then◌else◌};
ghost use Rattle.std.specs.Option.{ForSome};
ghost use Rattle.lk_base.specs.Ranges.{IsQuantum};
ghost use Rattle.lk_base.specs.Timeline.{IsTidy};
ghost use Rattle.client_state.specs.Commit.{IsTidyStart};
ghost use Rattle.client_state.specs.Words.{timeline_flag_of, start_flags_of, quantum_flag_of, word_if, word_of, flag_in, start_of_words, quantum_of_word, timeline_of_words};

use crate::commit::Commit;
use crate::words::{clipped_of_word, flag, flag_in, quantum_of_word, timeline_of_words};
use lk_base::{ClientStart, Timeline};

impl Commit {
    ghost use Rattle.client_state.specs.Commit.{IsTidyCommit};
    ghost use Rattle.client_state.specs.Words.{words_of_commit, commit_of_words};

    /// The commit as a row of eleven words. A tidy commit is read back from its row.
    #[tactic(auto, unfolding(crate::specs::Words::words_of_commit))]
    pub fn row(&self) -> [u64; 11]
        ensures words { result ≡ words_of_commit self.now }
        ensures reads_back { IsTidyCommit self.now → commit_of_words result ≡ self.now }
    {
        let (with_timeline, mpb, beat, time) = timeline_words(&self.timeline);
        let (with_start, start_time, stamp) = start_words(&self.start);
        let (with_quantum, quantum) = quantum_words(&self.quantum);
        [
            with_timeline + with_start + with_quantum,
            mpb,
            beat,
            time,
            start_time,
            stamp,
            self.at.cast_unsigned(),
            0,
            0,
            0,
            quantum,
        ]
    }

    /// The commit in a row. Whatever the words are, it is tidy.
    #[tactic(auto, unfolding(crate::specs::Words::commit_of_words))]
    pub fn from_row(row: &[u64; 11]) -> Commit
        ensures commit { result ≡ commit_of_words row.now }
        ensures tidy { IsTidyCommit result }
    {
        Commit {
            timeline: timeline_if(row[0], row[1], row[2], row[3]),
            start: start_if(row[0], row[4], row[5]),
            quantum: quantum_if(row[0], row[10]),
            at: clipped_of_word(row[6]),
        }
    }
}

// The flag of a timeline, and its words.
fn timeline_words(timeline: &Option<Timeline>) -> (u64, u64, u64, u64)
    ensures flag { result.0 ≡ timeline_flag_of timeline.now }
    ensures mpb { result.1 ≡ word_if (λ tl. tl.mpb) timeline.now }
    ensures beat { result.2 ≡ word_if (λ tl. tl.beat) timeline.now }
    ensures time { result.3 ≡ word_if (λ tl. tl.time) timeline.now }
    ensures most { result.0 ≤ 1 }
{
    match timeline {
        Some(tl) => (
            1,
            tl.mpb.cast_unsigned(),
            tl.beat.cast_unsigned(),
            tl.time.cast_unsigned(),
        ),
        None => (0, 0, 0, 0),
    }
}

// The flags of a start, and its words.
fn start_words(start: &Option<ClientStart>) -> (u64, u64, u64)
    ensures flags { result.0 ≡ start_flags_of start.now }
    ensures time { result.1 ≡ word_if (λ some. some.time) start.now }
    ensures stamp { result.2 ≡ word_if (λ some. some.stamp) start.now }
    ensures most { result.0 ≤ 6 }
{
    match start {
        Some(start) => (
            2 + flag(start.playing, 4),
            start.time.cast_unsigned(),
            start.stamp.cast_unsigned(),
        ),
        None => (0, 0, 0),
    }
}

// The flag of a quantum, and its word.
fn quantum_words(quantum: &Option<i64>) -> (u64, u64)
    ensures flag { result.0 ≡ quantum_flag_of quantum.now }
    ensures word { result.1 ≡ word_if (λ some. some) quantum.now }
    ensures most { result.0 ≤ 8 }
{
    match quantum {
        Some(quantum) => (8, quantum.cast_unsigned()),
        None => (0, 0),
    }
}

// The timeline in three words, where its flag is set.
fn timeline_if(flags: u64, mpb: u64, beat: u64, time: u64) -> Option<Timeline>
    ensures value { result ≡ (if flag_in flags 1 then Some (timeline_of_words mpb beat time) else None) }
    ensures tidy { ForSome result IsTidy }
{
    if flag_in(flags, 1) {
        Some(timeline_of_words(mpb, beat, time))
    } else {
        None
    }
}

// The start in two words, where its flag is set.
fn start_if(flags: u64, time: u64, stamp: u64) -> Option<ClientStart>
    ensures value { result ≡ (if flag_in flags 2 then Some (start_of_words flags time stamp) else None) }
    ensures tidy { ForSome result IsTidyStart }
{
    if flag_in(flags, 2) {
        Some(ClientStart {
            playing: flag_in(flags, 4),
            time: clipped_of_word(time),
            stamp: clipped_of_word(stamp),
        })
    } else {
        None
    }
}

// The quantum in a word, where its flag is set.
fn quantum_if(flags: u64, quantum: u64) -> Option<i64>
    ensures value { result ≡ (if flag_in flags 8 then Some (quantum_of_word quantum) else None) }
    ensures tidy { ForSome result IsQuantum }
{
    if flag_in(flags, 8) {
        Some(quantum_of_word(quantum))
    } else {
        None
    }
}
