//! Numbers, flags, ids and timelines in words.

ghost use Rattle.std.specs.Prelude.{◌≡◌, ◌≤◌, ◌<◌};
ghost use Rattle.lk_base.specs.Ranges.{IsQuantum, IsWithinLimit};
ghost use Rattle.lk_base.specs.Timeline.{IsTidy};
ghost use Rattle.client_state.specs.Words as spec;

use crate::state::edits::nearest_quantum;
use lk_base::{NodeId, Timeline, clip};
use timeline_math::tidy;

// The number in a word, clipped.
pub(crate) fn clipped_of_word(word: u64) -> i64
    ensures value { result ≡ spec.clipped_of_word word }
    ensures within { IsWithinLimit result }
{
    clip(word.cast_signed() as i128)
}

// The number in a word, taken to the nearest length that a quantum may have.
pub(crate) fn quantum_of_word(word: u64) -> i64
    ensures value { result ≡ spec.quantum_of_word word }
    ensures within { IsQuantum result }
{
    nearest_quantum(word.cast_signed())
}

// An id's eight bytes as a number, and back. By value, since the bytes of a value are known to be eight.
pub(crate) fn word_of_id(id: NodeId) -> u64
    ensures value { result ≡ spec.word_of_id id }
    ensures reads_back { spec.id_of_word result ≡ id }
{
    u64::from_be_bytes(id.0)
}

pub(crate) fn id_of_word(word: u64) -> NodeId
    ensures { result ≡ spec.id_of_word word }
{
    NodeId(word.to_be_bytes())
}

// The timeline in three words, tidied.
pub(crate) fn timeline_of_words(mpb: u64, beat: u64, time: u64) -> Timeline
    ensures value { result ≡ spec.timeline_of_words mpb beat time }
    ensures tidy { IsTidy result }
{
    tidy(&Timeline {
        mpb: mpb.cast_signed(),
        beat: beat.cast_signed(),
        time: time.cast_signed(),
    })
}

// A flag as a number: its weight where it is set.
pub(crate) fn flag(set: bool, weight: u64) -> u64
    ensures value { result ≡ spec.flag_of set weight }
    ensures most { result ≤ weight }
{
    if set { weight } else { 0 }
}

// The flag of this weight in a word.
pub(crate) fn flag_in(word: u64, weight: u64) -> bool
    requires { 0 < weight }
    ensures { result ≡ spec.flag_in word weight }
{
    word / weight % 2 == 1
}
