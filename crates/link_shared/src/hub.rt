//! The hub: the one owner of the machine, to whom every event comes, in one order.

use crate::keeper::Keeper;
use crate::name::LinkName;
use crate::queue::QueuePass;
use audio_handoff::StateCell;
use link_node::Event;
use std::marker::Model;
use std::sync::ledger::Share;

mod drain;
mod handed;
mod hearing;
mod last_turn;
mod turn;

pub(crate) use handed::HandedPass;

/// What the network thread has of a link: the machine with its journal, the reader of the audio thread's commits, the pass that pops the
/// applications' commits, and the passes handed in.
///
/// Whatever happens between its calls, the rows made in both cells of states are those of the states that the journal publishes.
#[derive(Drop)]
pub struct Hub<C: StateCell<11>, N: LinkName> {
    pub(crate) keeper: Keeper<C, N>,
    // Reads the audio thread's commits.
    pub(crate) commits: C::Reader,
    // Pops the applications' commits.
    pub(crate) pass: QueuePass,
    // The passes handed in, at most 16, for which there is room.
    pub(crate) handed: Vec<HandedPass<C>>,
    // Their shares, merged into one.
    pub(crate) share: Share<N>,
}

impl<C: StateCell<11>, N: LinkName> Model for Hub<C, N> {
    ghost use Rattle.std.specs.Prelude.{◌≡◌, ◌≤◌, [], true, length, map, vec_capacity};
    ghost use Rattle.crossbeam_queue.specs.Passes.{view as hand_of};
    ghost use Rattle.link_node.specs.Config.{config_value};
    ghost use Rattle.link_node.specs.Event.{event_value};
    ghost use Rattle.link_shared.specs.Handed.{AreHanded, app_view_of};
    ghost use Rattle.link_shared.specs.Hub.{HubView};
    ghost use Rattle.link_shared.specs.Journal.{app_commits_in};
    ghost use Rattle.link_shared.specs.Keeper.{AreFirstOf, WereRead};

    ghost Value = { HubView };

    ghost view = { λ h. record {
      config = config_value h.keeper.node.config;
      opened_at = h.keeper.opened_at;
      most = h.keeper.most;
      journal = map event_value h.keeper.journal.items;
      reads = (C.reading h.commits).seen;
      popped = (hand_of h.pass).popped;
      quits = (hand_of h.pass).quits_popped;
      handed = map (app_view_of N.whole) h.handed.items;
    } };

    ghost invariant = { λ h. ((C.reading h.commits).cell ≡ N.audio_commits)
        × (h.pass.table_id ≡ N.queue) × (h.pass.me.1 ≡ []) × ((hand_of h.pass).pops ≡ true)
        × AreFirstOf h.keeper.most (length h.keeper.journal.items) (app_commits_in (map event_value h.keeper.journal.items)) (hand_of h.pass).popped
        × WereRead (C.reading h.commits).seen (map event_value h.keeper.journal.items)
        × (16 ≤ vec_capacity h.handed)
        × AreHanded N.app_states N.queue N.whole N.parts h.handed.items h.share.parts h.share.amount };
}

impl<C: StateCell<11>, N: LinkName> Hub<C, N> {
    ghost use Rattle.std.specs.Prelude.{◌≡◌, ◌≤◌, length, map};
    ghost use Rattle.lk_base.specs.Ranges.{IsMoment};
    ghost use Rattle.link_node.specs.Config.{IsConfig};
    ghost use Rattle.link_node.specs.Due.{due_of};
    ghost use Rattle.link_node.specs.Event.{event_value};
    ghost use Rattle.link_node.specs.Runs.{AreFitting};
    ghost use Rattle.link_shared.specs.Hub.{machine_of};

    /// The earliest moment at which a tick has work, in microseconds. Waits: no. Memory: none.
    pub fn due(&self) -> i64
        ensures { result ≡ due_of (machine_of self.now) }
    {
        self.keeper.node.due()
    }

    /// The greatest moment of an event so far, the opening's among them, in microseconds, 0..=2^55. Waits: no. Memory: none.
    pub fn moment(&self) -> i64
        ensures moment { result ≡ (machine_of self.now).moment }
        ensures range { IsMoment result }
        ensures opening { IsConfig self.now.config × IsMoment self.now.opened_at }
    {
        self.keeper.node.moment()
    }

    /// The events taken, in order: each was one that the node could take, and there are no more than the journal takes. Waits: no.
    /// Memory: none.
    pub fn journal(&self) -> &[Event]
        ensures events { map event_value result.now ≡ self.now.journal }
        ensures fits { AreFitting (length self.now.config.gates) 0 0 self.now.journal }
        ensures room { length self.now.journal ≤ self.now.most }
    {
        &self.keeper.journal
    }
}
