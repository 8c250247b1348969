//! The name of a link.
ghost use Rattle.std.specs.Prelude.{ℕ};
ghost use Rattle.atomic_table.specs.Seated.{TableId};

use std::marker::Brand;
use std::sync::ledger::Ledger;

/// Names one link: its cells, its queue and its ledger. Whatever has to be of one link is of one such type, since of a
/// value under a lock nothing is known but what its type says.
pub trait LinkName: Ledger {
    /// The cell of the states that applications read.
    ghost app_states: { TableId };

    /// The cell of the states that the audio thread reads.
    ghost audio_states: { TableId };

    /// The cell of the audio thread's commits.
    ghost audio_commits: { TableId };

    /// The queue of the applications' commits.
    ghost queue: { TableId };

    /// How many parts the ledger of the applications' commits has.
    ghost whole: { ℕ };
}

impl LinkName for Brand {
    ghost use Rattle.link_shared.specs.Name.{no_table};

    ghost app_states = { no_table };

    ghost audio_states = { no_table };

    ghost audio_commits = { no_table };

    ghost queue = { no_table };

    ghost whole = { 0 };
}
