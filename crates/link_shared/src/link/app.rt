//! What an application does with a link: it captures states, commits edits, and lets the session end.
ghost use Rattle.std.specs.Prelude.{◌≡◌, ◌+◌, ◌<◌, [], nat_eq, IfOk, IfErr, OnErr, MatchResult};
ghost use Rattle.crossbeam_queue.specs.Passes.{view as hand_of};
ghost use Rattle.client_state.specs.Commit.{IsTidyCommit, IsTidyOwn};
ghost use Rattle.client_state.specs.State.{IsTidyState};
ghost use Rattle.link_shared.specs.Passes.{AppView, further_of, after_passing, HasCaptured, HasCommitted};

use super::Link;
use crate::capture::{Busy, Capture, QueueFull};
use crate::name::LinkName;
use crate::queue::{QueuePass, show_pass};
use audio_handoff::StateCell;
use client_state::{Commit, Own, State, shown};
use std::alloc::{AllocError, Global};
use std::marker::Model;
use std::sync::Wait;
use std::sync::ledger::Share;

/// An application thread's right to use a link. It stands for what that thread knows: the pairs of number and row that had
/// been read for the applications when it last captured, a beginning of the commits pushed, how many of those are its own,
/// its own last commit with its number, how many further passes it may make, and whether it is the only pass.
#[derive(Drop)]
pub struct AppPass<C: StateCell<11>, N: LinkName> {
    pub(crate) note: C::Note,
    pub(crate) pass: QueuePass,
    pub(crate) share: Share<N>,
    pub(crate) own: Own,
    pub(crate) room: u64,
    // How many commits it made: the share's amount.
    pub(crate) made: u64,
}

impl<C: StateCell<11>, N: LinkName> Model for AppPass<C, N> {
    ghost Value = { AppView };

    ghost view = { λ p. record {
      seen = (C.noting p.note).seen;
      pushed = (hand_of p.pass).pushed;
      made = p.share.amount;
      own = p.own.last;
      room = p.room;
      sole = nat_eq p.share.parts N.whole;
    } };

    ghost invariant = { λ p. ((C.noting p.note).cell ≡ N.app_states) × (p.pass.table_id ≡ N.queue) × (p.pass.me.1 ≡ [])
        × (p.share.parts ≡ p.room + 1) × IsTidyOwn p.own.last × (N.whole ≡ N.parts)
        × (p.share.amount ≡ p.made) };
}

impl<C: StateCell<11>, N: LinkName> AppPass<C, N> {
    /// How many further passes can be made from this one, 65,535 at the first pass of a link.
    /// Waits: no. Memory: none.
    pub fn room(&self) -> u64
        ensures { result ≡ self.now.room }
    {
        self.room
    }
}

impl<C: StateCell<11>, N: LinkName> Link<C, N> {
    /// A further pass, for another thread. It has captured what the given pass has, and has committed nothing. Without
    /// memory the given pass stays as it was.
    /// Waits: by the way. Memory: a note.
    pub fn app_pass<R: Wait>(
        &self,
        _rt: &R,
        alloc: Global,
        way: &C::Way,
        pass: &mut AppPass<C, N>,
    ) -> Result<AppPass<C, N>, AllocError>
        requires room { 0 < pass.old.room }
        ensures further { IfOk result (λ further. further ≡ further_of pass.old) }
        ensures given { IfOk result (λ _. pass.new ≡ after_passing pass.old) }
        ensures refused { OnErr result (pass.new ≡ pass.old) }
    {
        let AppPass {
            note,
            pass: known,
            share,
            room,
            ..
        } = pass;
        let copy = self.app_states.copy_note(alloc, way, note)?;
        let mut none = share.empty();
        share.give(&mut none, 1, 0);
        *room -= 1;
        Ok(AppPass {
            note: copy,
            pass: show_pass(&self.queue, known),
            share: none,
            own: Own { last: None },
            room: 0,
            made: 0,
        })
    }

    /// A state that was read for the applications, and what this pass is shown. It is no older than any that this pass has captured;
    /// that it was published is said at the end, by `Hub::last_turn`. Without memory the pass stays as it was.
    /// Waits: for the desk, and by the way. Memory: two notes.
    pub fn capture<R: Wait>(
        &self,
        rt: &R,
        alloc: Global,
        way: &C::Way,
        pass: &mut AppPass<C, N>,
    ) -> Result<Capture, AllocError>
        ensures captured { IfOk result (λ c. HasCaptured pass.old pass.new c.number c.state c.shown) }
        ensures tidy { IfOk result (λ c. IsTidyState c.state × IsTidyState c.shown) }
        ensures refused { OnErr result (pass.new ≡ pass.old) }
    {
        let AppPass { note, own, .. } = pass;
        let known = self.app_states.copy_note(alloc, way, note)?;
        let read = self
            .desk
            .lock(rt)
            .read(alloc, way, &self.app_states, known, note)?;
        let state = State::from_row(&read.row);
        Ok(Capture {
            number: read.number,
            state,
            shown: shown(own, state.app, &state),
        })
    }

    /// Hands a tidy commit to the session, and answers its number: how many commits were pushed then, of all passes.
    /// It comes back, and nothing changes, where the queue is full or 2^60 commits were pushed before. That the queue was full
    /// at a step of this very call, and that there is no other cause, is tested and not proved: other threads push and pop, so a
    /// clause over `&self` can't refuse a full queue that is made up.
    /// Waits: for the desk, and for a place's last user in the queue. Memory: none.
    pub fn commit<R: Wait>(
        &self,
        rt: &R,
        pass: &mut AppPass<C, N>,
        commit: Commit,
    ) -> Result<u64, Busy>
        requires tidy { IsTidyCommit commit }
        ensures committed { IfOk result (λ number. HasCommitted pass.old pass.new commit number) }
        ensures busy { IfErr result (λ busy. (busy.commit ≡ commit) × (pass.new ≡ pass.old)) }
    {
        let AppPass {
            pass: known,
            share,
            own,
            made,
            ..
        } = pass;
        let mut desk = self.desk.lock(rt);
        let number = desk.commit(rt, &self.queue, known, share, commit)?;
        *made += 1;
        own.last = Some((number, commit));
        Ok(number)
    }

    /// Asks the network thread to end, after all commits that were pushed before. `QueueFull` where the queue is full. Both are tested
    /// and not proved, as in `commit`: that the quit is pushed, and that the queue was full at a step of this very call.
    /// Waits: for the desk, and for a place's last user in the queue. Memory: none.
    pub fn quit<R: Wait>(&self, rt: &R) -> Result<(), QueueFull> {
        self.desk.lock(rt).quit(rt, &self.queue)
    }
}
