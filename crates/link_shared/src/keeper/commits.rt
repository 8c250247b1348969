//! The offers of a commit, which sends nothing, and of the end.
ghost use Rattle.std.specs.Prelude.{◌≡◌, ◌≤◌, ◌<◌, ◌+◌, ◌^◌, [], ◌∷◌, length, map};
ghost use Rattle.lk_base.specs.Ranges.{IsMoment};
ghost use Rattle.client_state.specs.Commit.{IsTidyCommit};
ghost use Rattle.link_node.specs.Config.{config_value};
ghost use Rattle.link_node.specs.Event.{event_value, App, End};
ghost use Rattle.link_node.specs.Opening.{opened};
ghost use Rattle.link_node.specs.Standing.{gates_of};
ghost use Rattle.link_shared.specs.Hub.{IsReadOffered};
ghost use Rattle.link_shared.specs.Journal.{IsOffered};

use super::Keeper;
use crate::name::LinkName;
use audio_handoff::{Read, StateCell};
use client_state::Commit;
use link_node::{Event, Sends, commits_send_nothing};

impl<C: StateCell<11>, N: LinkName> Keeper<C, N> {
    // Offers an application's commit. Answers whether the journal is full.
    // Waits: by the way. Memory: none.
    pub(crate) fn offer_app(
        &mut self,
        app_states: &C,
        audio_states: &C,
        way: &C::Way,
        commit: Commit,
        now: i64,
        sends: &mut Sends,
    ) -> bool
        requires cells { (C.cell app_states.now ≡ N.app_states) × (C.cell audio_states.now ≡ N.audio_states) }
        requires tidy { IsTidyCommit commit }
        requires moment { IsMoment now }
        requires room { length sends.old + 129 ≤ 160 }
        ensures opening { (self.new.opened_at ≡ self.old.opened_at) × (self.new.most ≡ self.old.most) }
        ensures config { (config_value self.new.node.config ≡ config_value self.old.node.config) × (gates_of self.new.node ≡ gates_of self.old.node) }
        ensures offered { IsOffered (opened (config_value self.old.node.config) self.old.opened_at) self.old.most (App commit now ∷ [])
            (map event_value self.old.journal.items) (map event_value self.new.journal.items) sends.old sends.new result }
        ensures sends { sends.new ≡ sends.old }
    {
        // A law, for the proof: a commit sends nothing.
        commits_send_nothing();
        self.offer(
            app_states,
            audio_states,
            way,
            Event::App { commit, now },
            sends,
        )
    }

    // Offers an audio commit that was read, where its number is greater than that of the last one taken. Answers whether the
    // journal is full.
    // Waits: by the way. Memory: none.
    pub(crate) fn offer_audio(
        &mut self,
        app_states: &C,
        audio_states: &C,
        way: &C::Way,
        read: &Read<11>,
        now: i64,
        sends: &mut Sends,
    ) -> bool
        requires cells { (C.cell app_states.now ≡ N.app_states) × (C.cell audio_states.now ≡ N.audio_states) }
        requires number { read.now.number < 2 ^ 60 }
        requires moment { IsMoment now }
        requires room { length sends.old + 129 ≤ 160 }
        ensures opening { (self.new.opened_at ≡ self.old.opened_at) × (self.new.most ≡ self.old.most) }
        ensures config { (config_value self.new.node.config ≡ config_value self.old.node.config) × (gates_of self.new.node ≡ gates_of self.old.node) }
        ensures offered { IsReadOffered (config_value self.old.node.config) self.old.opened_at self.old.most now (read.now.number, read.now.row)
            (map event_value self.old.journal.items) (map event_value self.new.journal.items) sends.old sends.new result }
        ensures sends { sends.new ≡ sends.old }
    {
        // A law, for the proof: a commit sends nothing.
        commits_send_nothing();
        if read.number <= self.node.state().audio {
            return false;
        }
        let event = Event::Audio {
            number: read.number,
            commit: Commit::from_row(&read.row),
            now,
        };
        self.offer(app_states, audio_states, way, event, sends)
    }

    // Offers the end. Answers whether the journal is full.
    // Waits: by the way. Memory: none.
    pub(crate) fn offer_end(
        &mut self,
        app_states: &C,
        audio_states: &C,
        way: &C::Way,
        now: i64,
        sends: &mut Sends,
    ) -> bool
        requires cells { (C.cell app_states.now ≡ N.app_states) × (C.cell audio_states.now ≡ N.audio_states) }
        requires moment { IsMoment now }
        requires room { length sends.old + 129 ≤ 160 }
        ensures opening { (self.new.opened_at ≡ self.old.opened_at) × (self.new.most ≡ self.old.most) }
        ensures config { (config_value self.new.node.config ≡ config_value self.old.node.config) × (gates_of self.new.node ≡ gates_of self.old.node) }
        ensures offered { IsOffered (opened (config_value self.old.node.config) self.old.opened_at) self.old.most (End now ∷ [])
            (map event_value self.old.journal.items) (map event_value self.new.journal.items) sends.old sends.new result }
    {
        self.offer(app_states, audio_states, way, Event::End { now }, sends)
    }
}
