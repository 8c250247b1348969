//! The parts of a link: its cells, its queue, its node and all room that it will need.
ghost use Rattle.std.specs.Prelude.{◌≡◌, ◌+◌, ◌≤◌, [], ◌∷◌, length, vec_capacity, IfOk};

use crate::hub::HandedPass;
use crate::ids::is_id;
use crate::queue::{Queue, QueuePass, open};
use audio_handoff::StateCell;
use client_state::{Commit, State};
use link_node::{Config, Event, Node};
use std::alloc::{AllocError, Global};
use std::marker::Model;
use std::sync::Wait;
use std::sync::ledger::Blank;

/// A cell with its tokens, of which only the opening row was made and none was read.
#[derive(Drop)]
pub(crate) struct NewCell<C: StateCell<11>> {
    pub(crate) cell: C,
    pub(crate) writer: C::Writer,
    pub(crate) reader: C::Reader,
    ghost writer_is: { (C.writing writer).cell ≡ C.cell cell },
    ghost reader_is: { (C.reading reader).cell ≡ C.cell cell },
    ghost one_row: { length (C.writing writer).made ≡ 1 },
    ghost unread: { ((C.reading reader).seen ≡ []) × ((C.reading reader).looks ≡ []) },
}

/// The parts of a link that has no name yet, all memory that it will need among them.
///
/// A type that names them is a `LinkName`; the link is made by a function that is generic in it.
#[derive(Drop)]
pub struct Parts<C: StateCell<11>> {
    pub(crate) app_states: NewCell<C>,
    pub(crate) audio_states: NewCell<C>,
    pub(crate) audio_commits: NewCell<C>,
    // The note of the first application's pass.
    pub(crate) note: C::Note,
    pub(crate) queue: Queue,
    pub(crate) pushing: QueuePass,
    pub(crate) popping: QueuePass,
    pub(crate) blank: Blank,
    pub(crate) opened_at: i64,
    // How many events the journal takes.
    pub(crate) most: u64,
    pub(crate) node: Node,
    pub(crate) journal: Vec<Event>,
    pub(crate) published: Vec<State>,
    // Room for the passes that are handed in.
    pub(crate) handed: Vec<HandedPass<C>>,
}

impl<C: StateCell<11>> Model for Parts<C> {
    ghost use Rattle.std.specs.Prelude.{◌≡◌, ◌≤◌, [], ◌∷◌, map, vec_capacity};
    ghost use Rattle.crossbeam_queue.specs.Passes.{view as hand_of, IsPassOf, ruled_capacity};
    ghost use Rattle.client_state.specs.State.{IsId, IsTidyState};
    ghost use Rattle.client_state.specs.Words.{words_of_state};
    ghost use Rattle.lk_base.specs.Ranges.{IsMoment};
    ghost use Rattle.link_node.specs.Config.{config_value, IsConfig};
    ghost use Rattle.link_node.specs.Opening.{opened};
    ghost use Rattle.link_node.specs.Standing.{StandsFor, app_of, audio_of};
    ghost use Rattle.link_shared.specs.Keeper.{HasRoom};
    ghost use Rattle.link_shared.specs.Parts.{PartsView};
    ghost use Rattle.link_shared.specs.Queue.{opener, pushing_part, popping_part};

    ghost Value = { PartsView };

    ghost view = { λ p. record {
      config = config_value p.node.config;
      opened_at = p.opened_at;
      most = p.most;
      app_states = C.cell p.app_states.cell;
      audio_states = C.cell p.audio_states.cell;
      audio_commits = C.cell p.audio_commits.cell;
      queue = p.queue.table.shared.table_id;
      ledger = p.blank.name;
      shares = p.blank.parts;
    } };

    ghost invariant = { λ p. IsConfig (config_value p.node.config) × IsMoment p.opened_at
        × StandsFor p.node (opened (config_value p.node.config) p.opened_at) × (app_of p.node ≡ 0) × (audio_of p.node ≡ 0)
        × (p.journal.items ≡ []) × (p.published.items ≡ (opened (config_value p.node.config) p.opened_at).published ∷ [])
        × (IsTidyState (opened (config_value p.node.config) p.opened_at).published × IsId (opened (config_value p.node.config) p.opened_at).published.session)
        × ((C.writing p.app_states.writer).made ≡ map words_of_state p.published.items)
        × ((C.writing p.audio_states.writer).made ≡ map words_of_state p.published.items)
        × HasRoom p.most 0 1 (vec_capacity p.journal) (vec_capacity p.published)
        × ((C.noting p.note).cell ≡ C.cell p.app_states.cell) × ((C.noting p.note).seen ≡ [])
        × (ruled_capacity p.queue ≡ 256) × (IsPassOf p.queue p.pushing × IsPassOf p.queue p.popping)
        × (hand_of p.pushing ≡ pushing_part opener) × (hand_of p.popping ≡ popping_part opener)
        × (p.blank.parts ≡ 65536) × (p.handed.items ≡ []) × (16 ≤ vec_capacity p.handed) };
}

// How many shares the ledger of the applications' commits has: one for each pass.
const SHARES: u64 = 65_536;

// How many applications' passes can be handed in before the last turn.
const HANDED: usize = 16;

// The opening row of the audio commits' cell, which is no commit.
const NO_COMMIT: Commit = Commit {
    timeline: None,
    start: None,
    quantum: None,
    at: 0,
};

impl<C: StateCell<11>> Parts<C> {
    ghost use Rattle.lk_base.specs.Ranges.{IsMoment};
    ghost use Rattle.link_node.specs.Config.{config_value, IsConfig};

    /// The parts of a link whose node is opened with that config at that moment, and whose journal takes so many events.
    ///
    /// Waits: by the way. Memory: three cells, a queue of 256 items, the node, the journal and the list of published states
    /// at their full length, and room for 16 passes that are handed in.
    pub fn new<R: Wait>(
        _rt: &R,
        alloc: Global,
        way: &C::Way,
        config: &Config,
        now: i64,
        events: u64,
    ) -> Result<Parts<C>, AllocError>
        requires config { IsConfig (config_value config.now) }
        requires moment { IsMoment now }
        requires events { (1 ≤ events) × (events ≤ 524_288) }
        ensures given { IfOk result (λ parts. (parts.config ≡ config_value config.now) × (parts.opened_at ≡ now) × (parts.most ≡ events)) }
        ensures shares { IfOk result (λ parts. parts.shares ≡ 65536) }
    {
        let node = Node::new(alloc, config, now)?;
        let state = node.state();
        is_id(state.session);
        let row = state.row();
        let lists = NewLists::<C>::new(alloc, events, state)?;
        let (queue, pushing, popping) = open(alloc)?;
        // The cells last: nothing that fails then has to drop their tokens.
        let cells = NewCells::<C>::new(alloc, way, &row)?;
        let NewCells {
            app_states,
            audio_states,
            audio_commits,
            note,
        } = cells;
        let NewLists {
            journal,
            published,
            handed,
        } = lists;
        Ok(Parts {
            app_states,
            audio_states,
            audio_commits,
            note,
            queue,
            pushing,
            popping,
            blank: Blank::new(SHARES),
            opened_at: now,
            most: events,
            node,
            journal,
            published,
            handed,
        })
    }
}

// The three cells, and a note of the reader of the first one, which has read nothing.
#[derive(Drop)]
struct NewCells<C: StateCell<11>> {
    app_states: NewCell<C>,
    audio_states: NewCell<C>,
    audio_commits: NewCell<C>,
    note: C::Note,
    ghost note_is: { ((C.noting note).cell ≡ C.cell app_states.cell) × ((C.noting note).seen ≡ []) },
}

impl<C: StateCell<11>> NewCells<C> {
    // The cells of states with that opening row, and the cell of commits with none.
    fn new(alloc: Global, way: &C::Way, row: &[u64; 11]) -> Result<NewCells<C>, AllocError>
        ensures app_row { IfOk result (λ new. (C.writing new.app_states.writer).made ≡ row.now ∷ []) }
        ensures audio_row { IfOk result (λ new. (C.writing new.audio_states.writer).made ≡ row.now ∷ []) }
    {
        let (app_states, note) = noted_cell::<C>(alloc, way, row)?;
        let audio_states = new_cell::<C>(alloc, way, row)?;
        let audio_commits = new_cell::<C>(alloc, way, &NO_COMMIT.row())?;
        Ok(NewCells {
            app_states,
            audio_states,
            audio_commits,
            note,
        })
    }
}

// The journal, the list of published states and the list of passes handed in.
#[derive(Drop)]
struct NewLists<C: StateCell<11>> {
    journal: Vec<Event>,
    published: Vec<State>,
    handed: Vec<HandedPass<C>>,
    ghost empty: { (journal.items ≡ []) × (handed.items ≡ []) × (16 ≤ vec_capacity handed) },
}

impl<C: StateCell<11>> NewLists<C> {
    // Lists with room for so many events, of which only the opening state stands in one.
    fn new(alloc: Global, events: u64, state: State) -> Result<NewLists<C>, AllocError>
        requires { events ≤ 524_288 }
        ensures published { IfOk result (λ new. new.published.items ≡ state ∷ []) }
        ensures room { IfOk result (λ new. (events ≤ vec_capacity new.journal) × (events + 1 ≤ vec_capacity new.published)) }
    {
        Ok(NewLists {
            journal: Vec::with_capacity(alloc, events as usize)?,
            published: first_of(alloc, events as usize + 1, state)?,
            handed: Vec::with_capacity(alloc, HANDED)?,
        })
    }
}

// A cell with that opening row.
fn new_cell<C: StateCell<11>>(
    alloc: Global,
    way: &C::Way,
    row: &[u64; 11],
) -> Result<NewCell<C>, AllocError>
    ensures { IfOk result (λ new. (C.writing new.writer).made ≡ row.now ∷ []) }
{
    let (cell, writer, reader) = C::make(alloc, way, row)?;
    Ok(NewCell {
        cell,
        writer,
        reader,
    })
}

// A cell with that opening row, and a note of its reader, which has read nothing.
fn noted_cell<C: StateCell<11>>(
    alloc: Global,
    way: &C::Way,
    row: &[u64; 11],
) -> Result<(NewCell<C>, C::Note), AllocError>
    ensures row { IfOk result (λ t. (C.writing t.0.writer).made ≡ row.now ∷ []) }
    ensures note { IfOk result (λ t. ((C.noting t.1).cell ≡ C.cell t.0.cell) × ((C.noting t.1).seen ≡ [])) }
{
    let (cell, writer, mut reader) = C::make(alloc, way, row)?;
    let note = cell.note_of_reader(alloc, way, &mut reader)?;
    Ok((
        NewCell {
            cell,
            writer,
            reader,
        },
        note,
    ))
}

// A list of one state with room for so many.
fn first_of(alloc: Global, room: usize, state: State) -> Result<Vec<State>, AllocError>
    requires { 1 ≤ room }
    ensures items { IfOk result (λ list. list.items ≡ state ∷ []) }
    ensures room { IfOk result (λ list. room ≤ vec_capacity list) }
{
    let mut list = Vec::with_capacity(alloc, room)?;
    list.push_reserved(state);
    Ok(list)
}
