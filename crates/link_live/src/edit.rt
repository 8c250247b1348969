//! What a command of a live script does to the state that a client is shown.

ghost use Rattle.std.specs.Prelude.{◌≡◌};
ghost use Rattle.lk_base.specs.Ranges.{IsMoment, IsQuantum, IsWithinLimit};
ghost use Rattle.lk_base.specs.Timeline.{IsTidy};
ghost use Rattle.client_state.specs.Commit.{IsTidyCommit};
ghost use Rattle.client_state.specs.State.{IsTidyState};
ghost use Rattle.link_script.specs.LiveScript.{IsAct};
ghost use Rattle.link_live.specs.Clients.{edited_of, commit_of_act};

use client_state::{Commit, State};
use link_script::Act;
use link_shared::Capture;

/// The commit of an act at a moment: what it changes of the captured and of the shown state. Waits: no. Memory: none.
#[tactic(auto, unfolding(crate::specs::Clients::commit_of_act))]
pub fn commit_of(act: Act, at: i64, capture: &Capture) -> Commit
    requires act { IsAct act }
    requires moment { IsMoment at }
    requires tidy { IsTidyState capture.now.shown }
    ensures value { result ≡ commit_of_act act at capture.now }
    ensures tidy { IsTidyCommit result }
{
    let mut edited = capture.shown;
    edit(&mut edited, act, at);
    Commit::between(&capture.state, &capture.shown, &edited, at)
}

// Makes of a state what the act makes of it at a moment. Beats go by the state's own quantum.
#[tactic(auto, unfolding(crate::specs::Clients::edited_of))]
fn edit(state: &mut State, act: Act, at: i64)
    requires act { IsAct act }
    requires moment { IsMoment at }
    requires tidy { IsTidyState state.old }
    ensures value { state.new ≡ edited_of act at state.old }
    ensures tidy { IsTidy state.new.timeline }
    ensures start { IsWithinLimit state.new.start.time }
    ensures quantum { IsQuantum state.new.quantum }
{
    match act {
        Act::Tempo(mpb) => state.set_tempo(mpb, at),
        Act::Force(beat) => state.force_beat(beat, at, state.quantum),
        Act::Request(beat) => state.request_beat(beat, at, state.quantum),
        Act::Quantum(quantum) => state.set_quantum(quantum),
        Act::Play => state.set_playing(true, at),
        Act::Stop => state.set_playing(false, at),
        Act::Look => {}
    }
}
