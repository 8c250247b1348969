//! One's own last commit, and the state with it laid over.

ghost use Rattle.std.specs.Prelude.{◌≡◌};
ghost use Rattle.client_state.specs.State.{IsTidyState};
ghost use Rattle.client_state.specs.Commit.{IsTidyCommit, IsTidyOwn};
ghost use Rattle.client_state.specs.Shown.{laid_over, shown_over};

use crate::commit::Commit;
use crate::state::State;

/// One's own last commit, with its number.
#[derive(Clone, Copy, Debug, PartialEq, Eq)]
pub struct Own {
    pub last: Option<(u64, Commit)>,
}

/// The state with the timeline, the start and the quantum of one's own last commit laid over it, where that commit's number is above
/// the number of those taken; else the state.
#[inline(always)]
#[tactic(auto, unfolding(crate::specs::Shown::shown_over))]
pub fn shown(own: &Own, taken: u64, state: &State) -> State
    ensures value { result ≡ shown_over own.now.last taken state.now }
    ensures tidy { IsTidyState state.now → IsTidyOwn own.now.last → IsTidyState result }
{
    let mut over = *state;
    if let Some((number, commit)) = &own.last {
        if *number > taken {
            lay_over(commit, &mut over);
        }
    }
    over
}

// Puts the commit's timeline, start and quantum in place of the state's.
#[inline(always)]
fn lay_over(commit: &Commit, state: &mut State)
    ensures value { state.new ≡ laid_over commit.now state.old }
    ensures tidy { IsTidyState state.old → IsTidyCommit commit.now → IsTidyState state.new }
{
    if let Some(timeline) = &commit.timeline {
        state.timeline = *timeline;
    }
    if let Some(start) = &commit.start {
        // Field by field, since what lies between the fields of a whole start is slow to copy.
        state.start.playing = start.playing;
        state.start.time = start.time;
        state.start.stamp = start.stamp;
    }
    if let Some(quantum) = commit.quantum {
        state.quantum = quantum;
    }
}
