//! The applications' passes that are handed in before the last turn.

use crate::hub::Hub;
use crate::link::AppPass;
use crate::name::LinkName;
use crate::queue::QueuePass;
use audio_handoff::StateCell;
use client_state::Own;
use std::marker::Model;

// An application's pass without its share, and so without the link's name: room for it stands among the parts of a link.
#[derive(Drop)]
pub(crate) struct HandedPass<C: StateCell<11>> {
    pub(crate) note: C::Note,
    pub(crate) pass: QueuePass,
    pub(crate) own: Own,
    pub(crate) room: u64,
    // How many commits it made.
    pub(crate) made: u64,
}

impl<C: StateCell<11>> Model for HandedPass<C> {
    ghost use Rattle.std.specs.Prelude.{◌≡◌, []};
    ghost use Rattle.crossbeam_queue.specs.Passes.{view as hand_of};
    ghost use Rattle.link_shared.specs.Handed.{HandedView};

    ghost Value = { HandedView };

    ghost view = { λ p. record {
      cell = (C.noting p.note).cell;
      queue = p.pass.table_id;
      seen = (C.noting p.note).seen;
      pushed = (hand_of p.pass).pushed;
      made = p.made;
      own = p.own.last;
      room = p.room;
    } };

    ghost invariant = { λ p. p.pass.me.1 ≡ [] };
}

impl<C: StateCell<11>, N: LinkName> Hub<C, N> {
    ghost use Rattle.std.specs.Prelude.{◌≡◌, ◌<◌, [], ◌∷◌, ◌++◌, length};

    /// Keeps an application's pass, at most 16 of them, so that the last turn tells what became of its commits. Waits: no. Memory: none.
    pub fn hand_in(&mut self, pass: AppPass<C, N>)
        requires room { length self.old.handed < 16 }
        ensures { self.new ≡ record self.old { handed = self.old.handed ++ pass ∷ [] } }
    {
        let AppPass {
            note,
            pass: known,
            share,
            own,
            room,
            made,
        } = pass;
        self.share.merge(share);
        self.handed.push_reserved(HandedPass {
            note,
            pass: known,
            own,
            room,
            made,
        });
    }

    /// How many passes were handed in. Waits: no. Memory: none.
    pub fn handed(&self) -> usize
        ensures { result ≡ length self.now.handed }
    {
        self.handed.len()
    }
}
