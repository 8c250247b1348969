//! The last turn, which ends a link.
ghost use Rattle.std.specs.Prelude.{map};
ghost use Rattle.lk_base.specs.Ranges.{IsMoment};
ghost use Rattle.link_node.specs.Event.{event_value};
ghost use Rattle.link_shared.specs.Ending.{HasEnded};

use super::Hub;
use super::drain::drain;
use super::hearing::hear_all;
use crate::desk::Desk;
use crate::got::Ended;
use crate::link::{AudioPass, Link};
use crate::name::LinkName;
use crate::queue::join_ends;
use audio_handoff::StateCell;
use link_node::Sends;
use std::sync::Wait;

impl<C: StateCell<11>, N: LinkName> Hub<C, N> {
    /// Clears `sends` and ends the link: it ends the cell of audio commits and offers the last one made, where it wasn't
    /// taken, pops the queue until it is empty and offers each commit, offers the end, and ends both cells of states. Each
    /// of these events carries the moment `now`.
    ///
    /// Waits: for a place's last user in the queue, and by the way. Memory: none.
    pub fn last_turn<R: Wait>(
        self,
        rt: &R,
        link: Link<C, N>,
        way: &C::Way,
        audio: AudioPass<C, N>,
        now: i64,
        sends: &mut Sends,
    ) -> Ended
        requires moment { IsMoment now }
        ensures ended { HasEnded self audio now (map event_value result.events.items) result.published.items sends.new result.full }
    {
        sends.clear();
        let Hub {
            mut keeper,
            commits,
            mut pass,
            handed,
            share,
        } = self;
        let Link {
            app_states,
            audio_states,
            audio_commits,
            desk,
            queue,
        } = link;
        let AudioPass {
            reader: listener,
            writer,
            ..
        } = audio;
        let Desk {
            mut reader,
            pass: pushing,
            mut book,
            ..
        } = desk.into_inner();
        let last = audio_commits.settle(way, writer, commits);
        let audio_full = keeper.offer_audio(&app_states, &audio_states, way, &last, now, sends);
        join_ends(&queue, &mut pass, pushing);
        let apps_full = drain(
            rt,
            &queue,
            &mut pass,
            &mut keeper,
            &app_states,
            &audio_states,
            way,
            now,
            sends,
        );
        let end_full = keeper.offer_end(&app_states, &audio_states, way, now, sends);
        hear_all(
            &queue,
            &mut pass,
            &mut book,
            &app_states,
            way,
            &mut reader,
            handed,
            share,
        );
        let (events, published) = keeper.settle(app_states, audio_states, way, reader, listener);
        Ended {
            events,
            published,
            full: audio_full | apps_full | end_full,
        }
    }
}
