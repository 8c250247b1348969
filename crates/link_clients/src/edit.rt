//! What a line of a client does to the state that is shown.

ghost use Rattle.std.specs.Prelude.{◌≡◌, IfSome};
ghost use Rattle.lk_base.specs.Ranges.{IsMoment, IsQuantum, IsWithinLimit};
ghost use Rattle.lk_base.specs.Timeline.{IsTidy};
ghost use Rattle.client_state.specs.Commit.{IsTidyCommit};
ghost use Rattle.client_state.specs.State.{IsTidyState};
ghost use Rattle.link_asks.specs.Asks.{IsAsk};
ghost use Rattle.link_clients.specs.Edits.{commit_of_ask, edited_by};

use client_state::{Commit, State};
use link_asks::Ask;
use link_shared::Capture;

/// The commit of a line that asks for this at a moment, if it makes one: what it changes of the captured and of the shown state.
/// Waits: no. Memory: none.
#[tactic(auto, unfolding(crate::specs::Edits::commit_of_ask))]
pub fn commit_of(ask: Ask, at: i64, capture: &Capture) -> Option<Commit>
    requires ask { IsAsk ask }
    requires moment { IsMoment at }
    requires tidy { IsTidyState capture.now.shown }
    ensures value { result ≡ commit_of_ask ask at capture.now }
    ensures tidy { IfSome result IsTidyCommit }
{
    let edited = edited(capture.shown, ask, at)?;
    Some(Commit::between(&capture.state, &capture.shown, &edited, at))
}

// What the line makes of a state at a moment, if it edits it. Beats go by the state's own quantum.
#[tactic(auto, unfolding(crate::specs::Edits::edited_by))]
fn edited(mut state: State, ask: Ask, at: i64) -> Option<State>
    requires ask { IsAsk ask }
    requires moment { IsMoment at }
    requires tidy { IsTidyState state }
    ensures value { result ≡ edited_by ask at state }
    ensures tidy { IfSome result (λ new. IsTidy new.timeline) }
    ensures start { IfSome result (λ new. IsWithinLimit new.start.time) }
    ensures quantum { IfSome result (λ new. IsQuantum new.quantum) }
{
    let quantum = state.quantum;
    match ask {
        Ask::Tempo(mpb) => state.set_tempo(mpb, at),
        Ask::Play(time) => state.set_playing(true, time.unwrap_or(at)),
        Ask::Stop(time) => state.set_playing(false, time.unwrap_or(at)),
        Ask::Force(beat, time) => state.force_beat(beat, time, quantum),
        Ask::Request(beat, time) => state.request_beat(beat, time, quantum),
        Ask::Quantum(length) => state.set_quantum(length),
        Ask::Status
        | Ask::Now
        | Ask::Beat(_)
        | Ask::Phase(_)
        | Ask::Time(_)
        | Ask::Watch
        | Ask::Unwatch
        | Ask::Clients
        | Ask::Gates
        | Ask::End => return None,
    }
    Some(state)
}
