//! A state as a row of words, and back.

ghost use Rattle.std.specs.Prelude.{◌≡◌, ◌+◌, ◌*◌, ◌/◌, ◌%◌, ◌^◌};
ghost use Rattle.client_state.specs.Words.{flag_of};

use crate::state::State;
use crate::words::{
    clipped_of_word, flag, flag_in, id_of_word, quantum_of_word, timeline_of_words, word_of_id,
};
use lk_base::ClientStart;

impl State {
    ghost use Rattle.client_state.specs.State.{IsTidyState};
    ghost use Rattle.client_state.specs.Words.{words_of_state, state_of_words};

    /// The state as a row of eleven words. A tidy state is read back from its row.
    #[tactic(auto, unfolding(crate::specs::Words::words_of_state))]
    pub fn row(&self) -> [u64; 11]
        ensures words { result ≡ words_of_state self.now }
        ensures reads_back { IsTidyState self.now → state_of_words result ≡ self.now }
    {
        [
            self.timeline.mpb.cast_unsigned(),
            self.timeline.beat.cast_unsigned(),
            self.timeline.time.cast_unsigned(),
            self.start.time.cast_unsigned(),
            self.start.stamp.cast_unsigned(),
            state_flags(self.start.playing, self.sync, self.peers),
            self.moment.cast_unsigned(),
            self.app,
            self.audio,
            word_of_id(self.session),
            self.quantum.cast_unsigned(),
        ]
    }

    /// The state in a row. Whatever the words are, it is tidy: the tempo is clamped, the quantum taken to the nearest of
    /// 0..=2^40, and every other signed number clipped to 2^60.
    #[inline(always)]
    #[tactic(auto, unfolding(crate::specs::Words::state_of_words))]
    pub fn from_row(row: &[u64; 11]) -> State
        ensures state { result ≡ state_of_words row.now }
        ensures tidy { IsTidyState result }
    {
        State {
            timeline: timeline_of_words(row[0], row[1], row[2]),
            start: ClientStart {
                playing: flag_in(row[5], 1),
                time: clipped_of_word(row[3]),
                stamp: clipped_of_word(row[4]),
            },
            sync: flag_in(row[5], 2),
            peers: peers_in(row[5]),
            moment: clipped_of_word(row[6]),
            app: row[7],
            audio: row[8],
            session: id_of_word(row[9]),
            quantum: quantum_of_word(row[10]),
        }
    }
}

// Playing is 1, sync is 2, and a peer is 4.
fn state_flags(playing: bool, sync: bool, peers: u32) -> u64
    ensures { result ≡ flag_of playing 1 + flag_of sync 2 + 4 * peers }
{
    flag(playing, 1) + flag(sync, 2) + 4 * peers as u64
}

// The number of peers in a flags word.
fn peers_in(word: u64) -> u32
    ensures { result ≡ word / 4 % 2 ^ 32 }
{
    (word / 4 % (1 << 32)) as u32
}
