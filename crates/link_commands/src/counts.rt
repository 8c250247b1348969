//! How much a run of a node came to.

ghost use Rattle.std.specs.Prelude.{◌≡◌, ◌≤◌, length};
ghost use Rattle.client_state.specs.declared.state.State.{State};
ghost use Rattle.link_node.specs.Runs.{shown_by};

use link_node::Change;

/// How many events there were so far, how many states with the opening one, and how many datagrams were sent.
#[derive(Clone, Copy, Debug)]
pub struct Counts {
    pub events: u64,
    pub states: u64,
    pub sends: u64,
}

/// How many states a step publishes.
pub fn count_of(change: Change) -> u64
    ensures count { (state : State) → result ≡ length (shown_by change state) }
    ensures few { result ≤ 1 }
{
    match change {
        Change::Same => 0,
        Change::Published => 1,
    }
}
