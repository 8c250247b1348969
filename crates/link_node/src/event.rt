//! What happens to a node, and whether clients see it.

use client_state::Commit;
use lk_base::{Endpoint, Gate, Wire};

/// What happens to a node. `now` is the moment of the event in microseconds of host time, 0..=2^55; a moment before the
/// greatest one so far counts as that.
#[derive(Debug, Drop)]
pub enum Event {
    /// A datagram came on a gate from an endpoint.
    Rx {
        gate: Gate,
        from: Endpoint,
        bytes: Wire,
        now: i64,
    },
    /// Time alone.
    Tick {
        now: i64,
    },
    /// A commit of an application.
    App {
        commit: Commit,
        now: i64,
    },
    /// A commit of the audio thread, by its number from 1. One that was overwritten is left out, so numbers rise by one or more.
    Audio {
        number: u64,
        commit: Commit,
        now: i64,
    },
    /// The node says goodbye.
    End {
        now: i64,
    },
}

/// Whether a step published a state.
#[derive(Clone, Copy, Debug, PartialEq, Eq)]
pub enum Change {
    /// The state differs in its moment at most from the one published last.
    Same,
    /// The state was published.
    Published,
}
