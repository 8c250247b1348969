//! The end of both cells of states.
ghost use Rattle.std.specs.Prelude.{◌≡◌};
ghost use Rattle.link_shared.specs.Ending.{WerePublished};

use super::Keeper;
use crate::name::LinkName;
use audio_handoff::StateCell;
use client_state::{State, rows_are_read_back};
use link_node::Event;

impl<C: StateCell<11>, N: LinkName> Keeper<C, N> {
    // Ends both cells of states: whatever was read of them was published. Answers the journal and the states published.
    // Waits: by the way. Memory: none.
    pub(crate) fn settle(
        self,
        app_states: C,
        audio_states: C,
        way: &C::Way,
        app_reader: C::Reader,
        audio_reader: C::Reader,
    ) -> (Vec<Event>, Vec<State>)
        requires cells { (C.cell app_states ≡ N.app_states) × (C.cell audio_states ≡ N.audio_states) }
        requires readers { ((C.reading app_reader).cell ≡ N.app_states) × ((C.reading audio_reader).cell ≡ N.audio_states) }
        ensures kept { (result.0 ≡ self.journal) × (result.1 ≡ self.published) }
        ensures app { WerePublished self.published.items (C.reading app_reader).seen }
        ensures audio { WerePublished self.published.items (C.reading audio_reader).seen }
    {
        // A law, for the proof: a tidy state is read back from its row.
        rows_are_read_back();
        let Keeper {
            journal,
            published,
            app_writer,
            audio_writer,
            ..
        } = self;
        app_states.settle(way, app_writer, app_reader);
        audio_states.settle(way, audio_writer, audio_reader);
        (journal, published)
    }
}
