//! What always holds of a node, and when a tick has work: laws for what stands above. To call one is to know it.

ghost use Rattle.std.specs.Prelude.{◌≡◌, ◌≤◌, ◌≤ℤ◌, ◌<ℤ◌, ℕ, ℤ, List, length};
ghost use Rattle.std.specs.List.{AllByRecursion};
ghost use Rattle.lk_base.specs.Ranges.{IsMoment};
ghost use Rattle.client_state.specs.State.{IsTidyState};
ghost use Rattle.client_state.specs.declared.commit.Commit.{Commit};
ghost use Rattle.link_node.specs.Config.{ConfigValue, IsConfig};
ghost use Rattle.link_node.specs.Due.{due_of};
ghost use Rattle.link_node.specs.Event.{EventValue, Fits};
ghost use Rattle.link_node.specs.Event as event;
ghost use Rattle.link_node.specs.Machine.{Machine, session_in};
ghost use Rattle.link_node.specs.Opening.{opened};
ghost use Rattle.link_node.specs.Runs.{machine_after, published_by, AreFitting};
ghost use Rattle.link_node.specs.Step.{step_of};
ghost use Rattle.link_node.specs.WellFormed.{IsMachine};

use crate::laws::{commits_are_counted, moments_never_fall};

/// A node is well formed at its opening and stays so: no session is known twice, each waits once and is known, and all
/// timelines and all states published are tidy.
pub fn nodes_are_well_formed()
    ensures opening { (config : ConfigValue) (now : ℤ) → IsConfig config → IsMoment now → IsMachine (opened config now) }
    ensures step { (m : Machine) (e : EventValue) → IsMachine m → Fits (length m.config.gates) m.app m.audio e
        → IsMachine (step_of m e) }
    ensures run { (m : Machine) (es : List EventValue) → IsMachine m → AreFitting (length m.config.gates) m.app m.audio es
        → IsMachine (machine_after m es) }
    ensures published { (m : Machine) (es : List EventValue) → IsMachine m → AreFitting (length m.config.gates) m.app m.audio es
        → AllByRecursion IsTidyState (published_by m es) }
{
    moments_never_fall();
    commits_are_counted();
}

/// The state published last tells the peers and the commits taken.
pub fn states_tell_the_counts()
    ensures peers { (m : Machine) → IsMachine m → m.published.peers ≡ m.peers }
    ensures app { (m : Machine) → IsMachine m → m.published.app ≡ m.app }
    ensures audio { (m : Machine) → IsMachine m → m.published.audio ≡ m.audio }
{}

/// The state published last tells the session that the node is in, and its quantum.
pub fn states_tell_the_session()
    ensures session { (m : Machine) → IsMachine m → m.published.session ≡ session_in m }
    ensures quantum { (m : Machine) → IsMachine m → m.published.quantum ≡ m.quantum }
{}

/// There is room for each session that waits: each waits once, and is the current one or one of 64 others.
pub fn few_sessions_wait()
    ensures { (m : Machine) → IsMachine m → length m.waiting ≤ 65 }
{}

/// After a tick nothing is due before a later moment.
pub fn a_tick_leaves_nothing_due()
    ensures { (m : Machine) (now : ℤ) → IsMachine m → IsMoment now
        → (step_of m (event.Tick now)).moment <ℤ due_of (step_of m (event.Tick now)) }
{}

/// What is due at a commit's moment is due after it, so a tick that was called for before a commit has work after it.
pub fn commits_put_off_nothing()
    ensures app { (m : Machine) (commit : Commit) (now : ℤ) → IsMachine m → due_of m ≤ℤ now
        → due_of (step_of m (event.App commit now)) ≤ℤ now }
    ensures audio { (m : Machine) (number : ℕ) (commit : Commit) (now : ℤ) → IsMachine m → due_of m ≤ℤ now
        → due_of (step_of m (event.Audio number commit now)) ≤ℤ now }
{}
