//! What a command is that reads a whole text and writes another.

ghost use Rattle.std.specs.Prelude.{◌≡◌, ◌≤◌, List, ℕ, length, IfOk, IfErr, OnOk, OnErr};
ghost use Rattle.lk_outside.specs.Faults.{Rose};
ghost use Rattle.link_commands.specs.Outlet.{HandsOver, HandsPart};
ghost use Rattle.link_commands.specs.Statuses.{Command};
ghost use Rattle.link_commands.specs.TextFaults.{IsTextFault};

use crate::outlet::{Outlet, SinkFailed};
use crate::status::Grammar;
use crate::text_fault::TextFault;
use lk_outside::Sink;
use std::alloc::Global;

/// A command that reads a whole text and writes another. A value of the type is what a checked text needs in order to be
/// answered. `read_and_answer` runs it.
pub trait TextCommand: Drop {
    /// What the words behind the command's name say.
    type Params;

    /// The command by these: its limit, its grammar, and which output a text has.
    ghost command: { Self.Params → Command };

    /// The value is one for the text.
    ghost ready: { Self.Params → Self → List ℕ → Type 0 };

    /// How many bytes of a text are read at most.
    fn limit(params: &Self::Params) -> usize
        ensures { result ≡ (command params.now).limit };

    /// What its texts are written in.
    fn grammar(params: &Self::Params) -> Grammar
        ensures { result ≡ (command params.now).grammar };

    /// Checks a whole text, and takes the memory that its answer needs.
    fn check(alloc: Global, params: &Self::Params, text: &[u8]) -> Result<Self, TextFault>
        requires { length text.now ≤ (command params.now).limit }
        ensures ready { IfOk result (λ checked. ready params.now checked text.now) }
        ensures fault { IfErr result (IsTextFault (command params.now) text.now) };

    /// Hands over the output for the text that was checked. Memory: none.
    fn hand<K: Sink>(
        &mut self,
        params: &Self::Params,
        text: &[u8],
        outlet: &mut Outlet,
        out: &mut K,
    ) -> Result<(), SinkFailed>
        requires short { length text.now ≤ (command params.now).limit }
        requires ready { ready params.now self.old text.now }
        ensures kept { OnOk result ((output : List ℕ) × (command params.now).Gives text.now output
            × HandsOver output (K.seen out.old).told outlet.old.kept.items (K.seen out.new).told outlet.new.kept.items) }
        ensures part { OnErr result ((output : List ℕ) × (command params.now).Gives text.now output
            × HandsPart output (K.seen out.old).told outlet.old.kept.items (K.seen out.new).told) }
        ensures quiet { OnOk result ((K.seen out.new).faults ≡ (K.seen out.old).faults) }
        ensures cause { OnErr result (Rose (K.seen out.old).faults (K.seen out.new).faults) };
}
