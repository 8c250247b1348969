//! The node and what is kept of it: the journal, the states published, and the writers of both cells of states.
ghost use Rattle.std.specs.Prelude.{◌≡◌, ◌≤◌, ◌<◌, ◌^◌, ◌++◌, length, map, vec_capacity};
ghost use Rattle.lk_base.specs.Ranges.{IsMoment};
ghost use Rattle.client_state.specs.State.{IsId};
ghost use Rattle.client_state.specs.Words.{words_of_state};
ghost use Rattle.link_node.specs.Config.{config_value, IsConfig};
ghost use Rattle.link_node.specs.Event.{event_value};
ghost use Rattle.link_node.specs.Opening.{opened};
ghost use Rattle.link_node.specs.Runs.{replayed, AreFitting, shown_by};
ghost use Rattle.link_node.specs.Standing.{StandsFor, gates_of, app_of, audio_of};
ghost use Rattle.link_shared.specs.Journal.{last_audio_in};
ghost use Rattle.link_shared.specs.Keeper.{IsShown, HasRoom};

use crate::ids::is_id;
use crate::name::LinkName;
use audio_handoff::StateCell;
use client_state::State;
use link_node::{Change, Event, Node, Sends, moments_never_fall, runs_go_on};
use std::marker::PhantomData;

mod commits;
mod settle;

/// The one owner of the node. What it publishes goes into the list of states published and into both cells, and what it takes
/// into the journal.
#[derive(Drop)]
pub(crate) struct Keeper<C: StateCell<11>, N: LinkName> {
    pub(crate) opened_at: i64,
    // How many events the journal takes.
    pub(crate) most: u64,
    pub(crate) node: Node,
    pub(crate) journal: Vec<Event>,
    pub(crate) published: Vec<State>,
    pub(crate) app_writer: C::Writer,
    pub(crate) audio_writer: C::Writer,
    pub(crate) name: PhantomData<N>,
    ghost cells: { ((C.writing app_writer).cell ≡ N.app_states) × ((C.writing audio_writer).cell ≡ N.audio_states) },
    ghost config: { IsConfig (config_value node.config) },
    ghost opening: { IsMoment opened_at },
    ghost stands: { ∥ StandsFor node (replayed (config_value node.config) opened_at (map event_value journal.items)) ∥₁ },
    ghost shown: { IsShown (opened (config_value node.config) opened_at) (map event_value journal.items) published.items (C.writing app_writer).made (C.writing audio_writer).made },
    ghost room: { HasRoom most (length journal.items) (length published.items) (vec_capacity journal) (vec_capacity published) },
    ghost fitting: { ∥ AreFitting (gates_of node) 0 0 (map event_value journal.items) ∥₁ },
    ghost counted: { app_of node ≤ length journal.items },
    ghost numbered: { audio_of node ≡ last_audio_in 0 (map event_value journal.items) },
}

impl<C: StateCell<11>, N: LinkName> Keeper<C, N> {
    ghost use Rattle.std.specs.Prelude.{◌≡◌, ◌≤◌, ◌+◌, [], ◌∷◌, length, map};
    ghost use Rattle.link_node.specs.Config.{config_value};
    ghost use Rattle.link_node.specs.Event.{event_value, Fits};
    ghost use Rattle.link_node.specs.Opening.{opened};
    ghost use Rattle.link_node.specs.Standing.{gates_of, app_of, audio_of};
    ghost use Rattle.link_shared.specs.Journal.{IsOffered};

    // Offers an event: it is taken by the node and stands in the journal, and a state that it publishes goes to both cells,
    // unless the journal is full. Answers whether it is. Waits: by the way. Memory: none.
    pub(crate) fn offer(
        &mut self,
        app_states: &C,
        audio_states: &C,
        way: &C::Way,
        event: Event,
        sends: &mut Sends,
    ) -> bool
        requires cells { (C.cell app_states.now ≡ N.app_states) × (C.cell audio_states.now ≡ N.audio_states) }
        requires event { Fits (gates_of self.old.node) (app_of self.old.node) (audio_of self.old.node) (event_value event) }
        requires room { length sends.old + 129 ≤ 160 }
        ensures opening { (self.new.opened_at ≡ self.old.opened_at) × (self.new.most ≡ self.old.most) }
        ensures config { (config_value self.new.node.config ≡ config_value self.old.node.config) × (gates_of self.new.node ≡ gates_of self.old.node) }
        ensures offered { IsOffered (opened (config_value self.old.node.config) self.old.opened_at) self.old.most (event_value event ∷ [])
            (map event_value self.old.journal.items) (map event_value self.new.journal.items) sends.old sends.new result }
        ensures len { length sends.new ≤ length sends.old + 129 }
    {
        // Laws, for the proof: a run goes on with each event, and its config stays.
        runs_go_on();
        moments_never_fall();
        if self.journal.len() as u64 >= self.most {
            return true;
        }
        let Keeper {
            node,
            journal,
            published,
            app_writer,
            audio_writer,
            ..
        } = self;
        let change = node.step(&event, sends);
        let state = node.state();
        show(
            change,
            state,
            app_states,
            audio_states,
            way,
            app_writer,
            audio_writer,
            published,
        );
        journal.push_reserved(event);
        false
    }
}

// A state that was published goes into the list and into both cells. Waits: by the way. Memory: none.
fn show<C: StateCell<11>>(
    change: Change,
    state: State,
    app_states: &C,
    audio_states: &C,
    way: &C::Way,
    app_writer: &mut C::Writer,
    audio_writer: &mut C::Writer,
    published: &mut Vec<State>,
)
    requires cells { ((C.writing app_writer.old).cell ≡ C.cell app_states.now) × ((C.writing audio_writer.old).cell ≡ C.cell audio_states.now) }
    requires numbers { (length (C.writing app_writer.old).made < 2 ^ 60) × (length (C.writing audio_writer.old).made < 2 ^ 60) }
    requires room { length published.old.items < vec_capacity published.old }
    ensures cells { ((C.writing app_writer.new).cell ≡ C.cell app_states.now) × ((C.writing audio_writer.new).cell ≡ C.cell audio_states.now) }
    ensures app_rows { (C.writing app_writer.new).made ≡ (C.writing app_writer.old).made ++ map words_of_state (shown_by change state) }
    ensures audio_rows { (C.writing audio_writer.new).made ≡ (C.writing audio_writer.old).made ++ map words_of_state (shown_by change state) }
    ensures published { published.new.items ≡ published.old.items ++ shown_by change state }
    ensures capacity { vec_capacity published.new ≡ vec_capacity published.old }
    // What its type says of it: so it stands in words of its own.
    ensures peers { state.peers < 2 ^ 32 }
    ensures session { IsId state.session }
{
    is_id(state.session);
    if change == Change::Same {
        return;
    }
    let row = state.row();
    app_states.publish(way, app_writer, &row);
    audio_states.publish(way, audio_writer, &row);
    published.push_reserved(state);
}
