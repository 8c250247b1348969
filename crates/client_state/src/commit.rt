//! An edit on its way to the session.

ghost use Rattle.std.specs.Prelude.{◌≡◌, ◌<◌, ◌↔◌, ℕ, IsTrue, Some};
ghost use Rattle.std.specs.Option.{ForSome};
ghost use Rattle.client_state.specs.Commit.{IsTidyStart, same_playing};
ghost use Rattle.client_state.specs.Commit as spec;
ghost use Rattle.lk_base.specs.Ranges.{IsQuantum, IsWithinLimit};
ghost use Rattle.lk_base.specs.Timeline.{IsTidy};

use crate::state::{QUANTUM_MAX, State};
use lk_base::{ClientStart, Timeline, is_within_limit};
use timeline_math::tidy;

mod row;

/// An edit on its way to the session.
#[derive(Clone, Copy, Debug, PartialEq, Eq)]
pub struct Commit {
    /// The new timeline, where it is edited.
    pub timeline: Option<Timeline>,
    /// The new start, where it is edited.
    pub start: Option<ClientStart>,
    /// The new quantum, in microbeats, where it is edited.
    pub quantum: Option<i64>,
    /// The host time at which it was made, in microseconds.
    pub at: i64,
}

impl Commit {
    ghost use Rattle.client_state.specs.Commit.{IsTidyCommit, commit_between};
    ghost use Rattle.client_state.specs.Shown.{shown_over};

    /// What an edit changed, made at the host time `now`: `old` is the state as it was captured, `shown` what the caller
    /// was shown, and `new` that with its edits.
    ///
    /// The timeline is carried where it differs from either, since what an own commit changed that isn't taken yet is in
    /// `shown` and not in `old`, and has to be carried again; likewise the start, with the stamp `now`, where its playing
    /// or time differs, and the quantum.
    #[inline(always)]
    #[tactic(auto, unfolding(crate::specs::Commit::commit_between))]
    pub fn between(old: &State, shown: &State, new: &State, now: i64) -> Commit
        ensures value { result ≡ commit_between old.now shown.now new.now now }
        ensures tidy { IsTidy new.now.timeline → IsWithinLimit new.now.start.time → IsQuantum new.now.quantum
            → IsWithinLimit now → IsTidyCommit result }
        // Laid over the state as captured, it shows the edited timeline, playing, time and quantum: no earlier own commit is
        // hidden.
        ensures shows_timeline { (number taken : ℕ) → taken < number
            → (shown_over (Some (number, result)) taken old.now).timeline ≡ new.now.timeline }
        ensures shows_playing { (number taken : ℕ) → taken < number
            → (shown_over (Some (number, result)) taken old.now).start.playing ≡ new.now.start.playing }
        ensures shows_time { (number taken : ℕ) → taken < number
            → (shown_over (Some (number, result)) taken old.now).start.time ≡ new.now.start.time }
        ensures shows_quantum { (number taken : ℕ) → taken < number
            → (shown_over (Some (number, result)) taken old.now).quantum ≡ new.now.quantum }
    {
        Commit {
            timeline: timeline_between(&old.timeline, &shown.timeline, &new.timeline),
            start: start_between(&old.start, &shown.start, &new.start, now),
            quantum: quantum_between(old.quantum, shown.quantum, new.quantum),
            at: now,
        }
    }

    /// Whether its timeline, if there, is tidy, its quantum, if there, is in 0..=2^40, and all its other numbers are within
    /// 2^60 of 0.
    pub fn is_tidy(&self) -> bool
        ensures { IsTrue result ↔ IsTidyCommit self.now }
    {
        is_tidy_timeline(&self.timeline)
            && is_tidy_start(&self.start)
            && is_tidy_quantum(&self.quantum)
            && is_within_limit(self.at)
    }
}

// The new timeline, where it differs from either other.
fn timeline_between(old: &Timeline, shown: &Timeline, new: &Timeline) -> Option<Timeline>
    ensures { result ≡ spec.timeline_between old.now shown.now new.now }
{
    if new == old && new == shown {
        None
    } else {
        Some(*new)
    }
}

// The new start, set at `now`, where it plays otherwise than either other.
fn start_between(
    old: &ClientStart,
    shown: &ClientStart,
    new: &ClientStart,
    now: i64,
) -> Option<ClientStart>
    ensures { result ≡ spec.start_between old.now shown.now new.now now }
{
    if plays_alike(new, old) && plays_alike(new, shown) {
        None
    } else {
        Some(ClientStart {
            playing: new.playing,
            time: new.time,
            stamp: now,
        })
    }
}

// The new quantum, where it differs from either other.
fn quantum_between(old: i64, shown: i64, new: i64) -> Option<i64>
    ensures { result ≡ spec.quantum_between old shown new }
{
    if new != old || new != shown {
        Some(new)
    } else {
        None
    }
}

// Whether playing and time are the same.
fn plays_alike(a: &ClientStart, b: &ClientStart) -> bool
    ensures { result ≡ same_playing a.now b.now }
{
    a.playing == b.playing && a.time == b.time
}

// Whether it is tidy, if it is there.
fn is_tidy_timeline(timeline: &Option<Timeline>) -> bool
    ensures { IsTrue result ↔ ForSome timeline.now IsTidy }
{
    match timeline {
        Some(tl) => tidy(tl) == *tl,
        None => true,
    }
}

// Whether its numbers are in range, if it is there.
fn is_tidy_start(start: &Option<ClientStart>) -> bool
    ensures { IsTrue result ↔ ForSome start.now IsTidyStart }
{
    match start {
        Some(start) => is_within_limit(start.time) && is_within_limit(start.stamp),
        None => true,
    }
}

// Whether it is in range, if it is there.
fn is_tidy_quantum(quantum: &Option<i64>) -> bool
    ensures { IsTrue result ↔ ForSome quantum.now IsQuantum }
{
    match quantum {
        Some(quantum) => *quantum >= 0 && *quantum <= QUANTUM_MAX,
        None => true,
    }
}
