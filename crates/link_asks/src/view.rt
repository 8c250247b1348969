//! What clients are shown of a state.

ghost use Rattle.std.specs.Prelude.{◌≡◌};
ghost use Rattle.link_asks.specs.Views.{shown_view_of};

use client_state::State;
use lk_base::NodeId;

/// What clients are shown of a state: whoever watches is told where this differs.
#[derive(Clone, Copy, Debug, PartialEq, Eq)]
pub struct View {
    /// The tempo, in microseconds per beat.
    pub mpb: i64,
    /// The beat origin, in microbeats.
    pub beat: i64,
    /// The time origin, in microseconds.
    pub time: i64,
    pub playing: bool,
    /// Since when it plays or doesn't, in microseconds.
    pub start_time: i64,
    pub peers: u32,
    /// In microbeats.
    pub quantum: i64,
    pub session: NodeId,
}

/// What is shown of a state.
#[tactic(auto, unfolding(crate::specs::Views::shown_view_of))]
pub fn view_of(shown: &State) -> View
    ensures { result ≡ shown_view_of shown.now }
{
    View {
        mpb: shown.timeline.mpb,
        beat: shown.timeline.beat,
        time: shown.timeline.time,
        playing: shown.start.playing,
        start_time: shown.start.time,
        peers: shown.peers,
        quantum: shown.quantum,
        session: shown.session,
    }
}
