//! The sessions that a node knows.

use crate::current::Current;
use crate::known::Known;
use crate::others::{OTHERS, exchange, place_of, see_other};
use crate::verdict::{Saw, Verdict};
use crate::winning::wins;
use ghost_xform::XForm;
use lk_base::{NodeId, Timeline};
use std::alloc::{AllocError, Global};
use std::marker::Model;

/// The sessions that a node knows: the current one, with its offset, and at most 64 others. Of each the one timeline
/// that counts is kept, which is the first of greatest beat origin of those that it has taken.
///
/// A new session goes last among the others, the place of one that is forgotten is closed, and that of one that is
/// joined is taken by the old session. No call but `new` takes memory.
#[derive(Debug, Drop)]
pub struct Sessions {
    current: Known,
    xform: XForm,
    others: Vec<Known>,
}

impl Model for Sessions {
    ghost use Rattle.session_choice.specs.Table.{Table};

    ghost Value = { Table };

    ghost use Rattle.session_choice.specs.Kept.{table_of, IsKept};

    ghost view = { table_of };

    ghost invariant = { IsKept };
}

impl Sessions {
    ghost use Rattle.std.specs.Prelude.{◌≡◌, ◌⊎◌, ℕ, ◌<◌, ◌<ℤ◌, false, length, is_some, option_map, slice_get, Some, IfOk};
    ghost use Rattle.lk_base.specs.Ranges.{IsMoment};
    ghost use Rattle.lk_base.specs.Timeline.{IsTidy};
    ghost use Rattle.session_choice.specs.History.{best_in};
    ghost use Rattle.session_choice.specs.History.{History, Taking, StandsFor, opening, known_in, other_in, saw_of, saw_after, measured_of, measured_after, forgotten, committed};
    ghost use Rattle.session_choice.specs.Table.{HasDistinctIds, HasTidyTimelines};

    /// Knows the session that a node opens with, alone. Memory: room for 64 others.
    pub fn new(
        alloc: Global,
        session: NodeId,
        timeline: Timeline,
        xform: XForm,
    ) -> Result<Sessions, AllocError>
        ensures stands { IfOk result (λ sessions. StandsFor sessions (opening session timeline xform.offset)) }
        ensures tidy { IsTidy timeline → IfOk result HasTidyTimelines }
    {
        Ok(Sessions {
            current: Known { session, timeline },
            xform,
            others: Vec::with_capacity(alloc, OTHERS)?,
        })
    }

    /// The current session.
    pub fn current(&self) -> Current
        ensures session { (h : History) → StandsFor self.now h → result.session ≡ h.current.session }
        ensures timeline { (h : History) → StandsFor self.now h → result.timeline ≡ best_in h.current }
        ensures xform { (h : History) → StandsFor self.now h → result.xform.offset ≡ h.offset }
        ensures held { result.timeline ≡ self.now.current.timeline }
        ensures tidy { HasTidyTimelines self.now → IsTidy result.timeline }
        ensures distinct { HasDistinctIds self.now }
    {
        Current {
            session: self.current.session,
            timeline: self.current.timeline,
            xform: self.xform,
        }
    }

    /// How many other sessions are known.
    pub fn other_count(&self) -> usize
        ensures count { result ≡ length self.now.others }
        ensures answer { (h : History) → StandsFor self.now h → result ≡ length h.others }
    {
        self.others.len()
    }

    /// The other session at a place, from 0. Each stands at one place, and the current one at none.
    pub fn other(&self, k: usize) -> NodeId
        requires { k < length self.now.others }
        ensures answer { (h : History) → StandsFor self.now h
            → option_map (λ taking. taking.session) (slice_get h.others k) ≡ Some result }
        ensures alone { (h : History) (j : ℕ) (taking : Taking) → StandsFor self.now h
            → slice_get h.others j ≡ Some taking → taking.session ≡ result → j ≡ k }
        ensures another { (h : History) → StandsFor self.now h → h.current.session ≡ result → ⊥ }
    {
        self.others[k].session
    }

    /// The timeline that counts in a session. None where the session isn't known.
    pub fn timeline_of(&self, session: NodeId) -> Option<Timeline>
        ensures { (h : History) → StandsFor self.now h → result ≡ option_map best_in (known_in session h) }
    {
        if self.current.session == session {
            return Some(self.current.timeline);
        }
        let place = place_of(&self.others, session)?;
        Some(self.others[place].timeline)
    }

    /// Takes a timeline of a session. `Full` where the session isn't known and 64 others are, and `New` where it isn't
    /// known otherwise; `Taken` where it is known and the timeline has a greater beat origin than the one that counts,
    /// else `Kept`.
    pub fn saw(&mut self, session: NodeId, timeline: Timeline) -> Saw
        requires { IsTidy timeline }
        ensures answer { (h : History) → StandsFor self.old h → result ≡ saw_of h session timeline }
        ensures stands { (h : History) → StandsFor self.old h → StandsFor self.new (saw_after h session timeline) }
        ensures kept { result ≡ Saw.Kept → self.new ≡ self.old }
        ensures full { result ≡ Saw.Full → self.new ≡ self.old }
        ensures tidy { HasTidyTimelines self.old → HasTidyTimelines self.new }
    {
        if self.current.session == session {
            self.current.see(timeline)
        } else {
            see_other(&mut self.others, session, timeline)
        }
    }

    /// Takes the offset of a session that was measured, at the host time `now`. `Unknown` where the session isn't
    /// known, `Remeasured` where it is the current one, which has the offset from now on. Another one is `Joined` where it
    /// wins, and else `Stayed`: its ghost time has to be more than 500,000 microseconds later than the current session's,
    /// or less than 500,000 away from it with the lesser id.
    pub fn measured(&mut self, session: NodeId, xform: XForm, now: i64) -> Verdict
        ensures answer { (h : History) → StandsFor self.old h → result ≡ measured_of h session xform.offset now }
        ensures stands { (h : History) → StandsFor self.old h
            → StandsFor self.new (measured_after h session xform.offset now) }
        ensures stayed { result ≡ Verdict.Stayed → self.new ≡ self.old }
        ensures unknown { result ≡ Verdict.Unknown → self.new ≡ self.old }
        ensures tidy { HasTidyTimelines self.old → HasTidyTimelines self.new }
    {
        if self.current.session == session {
            // Its offset alone is new.
            self.xform = xform;
            return Verdict::Remeasured;
        }
        let Some(place) = place_of(&self.others, session) else {
            return Verdict::Unknown;
        };
        if wins(session, &xform, self.current.session, &self.xform, now) {
            exchange(&mut self.current, &mut self.others, place);
            self.xform = xform;
            return Verdict::Joined;
        }
        Verdict::Stayed
    }

    /// Forgets another session. False where it isn't among the others; nothing changes then.
    pub fn forget(&mut self, session: NodeId) -> bool
        ensures answer { (h : History) → StandsFor self.old h → result ≡ is_some (other_in session h) }
        ensures stands { (h : History) → StandsFor self.old h → StandsFor self.new (forgotten session h) }
        ensures unchanged { result ≡ false → self.new ≡ self.old }
        ensures tidy { HasTidyTimelines self.old → HasTidyTimelines self.new }
    {
        let Some(place) = place_of(&self.others, session) else {
            return false;
        };
        self.others.remove(place);
        true
    }

    /// Takes a timeline that the current session was given here: the one that counts, or one of greater beat origin.
    pub fn commit(&mut self, timeline: Timeline)
        requires tidy { IsTidy timeline }
        requires later { (timeline ≡ self.old.current.timeline) ⊎ (self.old.current.timeline.beat <ℤ timeline.beat) }
        ensures stands { (h : History) → StandsFor self.old h → StandsFor self.new (committed timeline h) }
        ensures counts { (h : History) → StandsFor self.old h → best_in (committed timeline h).current ≡ timeline }
        ensures tidy { HasTidyTimelines self.old → HasTidyTimelines self.new }
    {
        self.current.timeline = timeline;
    }

    /// Forgets all sessions, and knows this one alone.
    pub fn reset(&mut self, session: NodeId, timeline: Timeline, xform: XForm)
        ensures stands { StandsFor self.new (opening session timeline xform.offset) }
        ensures tidy { IsTidy timeline → HasTidyTimelines self.new }
    {
        self.current = Known { session, timeline };
        self.xform = xform;
        self.others.clear();
    }
}
