//! What the audio thread does with a link: it reads states and makes commits, and waits for nobody where the way is `()`.
ghost use Rattle.std.specs.Prelude.{◌≡◌, ◌+◌, ◌<◌, ◌^◌, ◌↔◌, length, IsTrue};
ghost use Rattle.std.specs.Bool.{OnFalse};
ghost use Rattle.client_state.specs.Commit.{IsTidyCommit};
ghost use Rattle.client_state.specs.State.{IsTidyState};
ghost use Rattle.link_shared.specs.Audio.{HasReadAudio, after_making};

use super::Link;
use crate::capture::Capture;
use crate::name::LinkName;
use audio_handoff::StateCell;
use client_state::{Commit, Own, State, shown};
use std::marker::{Model, PhantomData};

/// The audio thread's right to use a link. It stands for the pairs of number and row that it read, the look of each, and the commits that
/// it made.
#[derive(Drop)]
pub struct AudioPass<C: StateCell<11>, N: LinkName> {
    // Reads the states.
    pub(crate) reader: C::Reader,
    // Makes the commits.
    pub(crate) writer: C::Writer,
    // The last commit made, with its number.
    pub(crate) own: Own,
    pub(crate) name: PhantomData<N>,
}

impl<C: StateCell<11>, N: LinkName> Model for AudioPass<C, N> {
    ghost use Rattle.std.specs.Prelude.{◌≡◌, ◌<◌, length, map, drop};
    ghost use Rattle.client_state.specs.Commit.{IsTidyOwn};
    ghost use Rattle.client_state.specs.Words.{commit_of_words};
    ghost use Rattle.link_shared.specs.Audio.{AudioView, last_of};
    ghost use Rattle.link_shared.specs.Desk.{RestsAsReader};

    ghost Value = { AudioView };

    // The opening row of the commits' cell is no commit: it has the number 0.
    ghost view = { λ p. record {
      seen = (C.reading p.reader).seen;
      looks = (C.reading p.reader).looks;
      made = map commit_of_words (drop 1 (C.writing p.writer).made);
    } };

    ghost invariant = { λ p. ((C.reading p.reader).cell ≡ N.audio_states) × ((C.writing p.writer).cell ≡ N.audio_commits)
        × RestsAsReader (C.reading p.reader) × (0 < length (C.writing p.writer).made)
        × (p.own.last ≡ last_of (map commit_of_words (drop 1 (C.writing p.writer).made))) × IsTidyOwn p.own.last };
}

impl<C: StateCell<11>, N: LinkName> Link<C, N> {
    /// The state that the audio thread reads, and what it is shown: its last commit over it, until that is taken. It is no older than
    /// any that it was answered before; that it was published is said at the end, by `Hub::last_turn`.
    /// Waits: only by the way, so never where that is `()`. Memory: none.
    pub fn capture_audio(&self, way: &C::Way, pass: &mut AudioPass<C, N>) -> Capture
        ensures read { HasReadAudio pass.old pass.new result.number result.state result.shown }
        ensures tidy { IsTidyState result.state × IsTidyState result.shown }
    {
        let AudioPass { reader, own, .. } = pass;
        let read = self.audio_states.read(way, reader);
        let state = State::from_row(&read.row);
        Capture {
            number: read.number,
            state,
            shown: shown(own, state.audio, &state),
        }
    }

    /// Makes a tidy commit the audio thread's last one, for the network thread's next turn, and answers its number, which
    /// counts from 1. Commits of which a later one is read first are passed over.
    /// Waits: only by the way, so never where that is `()`. Memory: none.
    pub fn commit_audio(&self, way: &C::Way, pass: &mut AudioPass<C, N>, commit: &Commit) -> u64
        requires tidy { IsTidyCommit commit.now }
        requires room { length pass.old.made + 1 < 2 ^ 60 }
        ensures made { pass.new ≡ after_making pass.old commit.now }
        ensures number { result ≡ length pass.new.made }
    {
        let AudioPass { writer, own, .. } = pass;
        let made = self.audio_commits.publish(way, writer, &commit.row());
        own.last = Some((made, *commit));
        made
    }

    /// Whether no number is left for a further commit.
    /// Waits: no. Memory: none.
    pub fn audio_spent(&self, pass: &AudioPass<C, N>) -> bool
        ensures spent { IsTrue result ↔ (length pass.now.made + 1 ≡ 2 ^ 60) }
        ensures room { OnFalse result (length pass.now.made + 1 < 2 ^ 60) }
    {
        self.audio_commits.is_spent(&pass.writer)
    }
}
