//! What an application hands to the loop that owns the network: its commits, and that it ends.

ghost use Rattle.client_state.specs.Commit.{IsTidyCommit};
ghost use Rattle.link_shared.specs.Passes.{HasCommitted};

use crate::rest::{rest, rest_at_the_end};
use audio_handoff::StateCell;
use client_state::Commit;
use link_shared::{AppPass, Link, LinkName};
use std::sync::Wait;

/// Hands a commit over, as soon as the queue has room. Answers its number.
///
/// Waits: for the desk, and for room in the queue, a rest at a time. Memory: none.
pub fn hand_over<C: StateCell<11>, N: LinkName, R: Wait>(
    rt: &R,
    link: &Link<C, N>,
    pass: &mut AppPass<C, N>,
    commit: Commit,
) -> u64
    requires tidy { IsTidyCommit commit }
    ensures committed { HasCommitted pass.old pass.new commit result }
{
    for _ in rt.forever() {
        if let Ok(number) = link.commit(rt, pass, commit) {
            return number;
        }
        rest(rt);
    }
    unreachable!()
}

/// Asks the network's loop to end, as soon as the queue has room. Before that it rests 60 milliseconds, so that the last edit reaches the
/// peers.
///
/// Waits: in that rest, for the desk, and for room in the queue, a rest at a time. Memory: none.
pub fn ask_to_end<C: StateCell<11>, N: LinkName, R: Wait>(rt: &R, link: &Link<C, N>) {
    rest_at_the_end(rt);
    for _ in rt.forever() {
        if link.quit(rt).is_ok() {
            return;
        }
        rest(rt);
    }
    unreachable!()
}
