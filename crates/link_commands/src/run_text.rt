//! The run of a command that reads a whole text and writes another.

ghost use Rattle.std.specs.Prelude.{◌≡◌, ◌≢◌, ◌≤◌, List, ℕ, [], length, OnOk, OnErr};
ghost use Rattle.lk_outside.specs.Faults.{Rose};
ghost use Rattle.lk_outside.specs.Sink.{Appends};
ghost use Rattle.lk_outside.specs.Transfer.{AppendsPrefix};
ghost use Rattle.link_commands.specs.Statuses.{EndsInput, EndsText, IfNothingWritten};

use crate::outlet::{Outlet, SinkFailed};
use crate::status::Status;
use crate::text_command::TextCommand;
use crate::text_fault::TextFault;
use lk_outside::{InputFault, Sink, Source, read_all};
use std::alloc::Global;

/// Answers the text of `input` by a command whose words were taken: reads and checks it whole, and then writes its output to `out`. Nothing
/// is written unless the whole text is in the command's grammar.
///
/// Waits: in the objects' calls alone. Memory: the text, what its answer needs and the outlet, all of it before the first write.
pub fn read_and_answer<T: TextCommand, S: Source, K: Sink>(
    alloc: Global,
    params: &T::Params,
    input: &mut S,
    out: &mut K,
) -> Status
    ensures ends { EndsInput (T.command params.now)
        (S.seen input.old) (S.seen input.new)
        (K.seen out.old) (K.seen out.new) result }
    ensures taken { result ≢ Status.Words }
    ensures unwritten { IfNothingWritten result (out.new ≡ out.old) }
{
    let limit = T::limit(params);
    match read_all(alloc, input, limit) {
        Ok(text) => answer_text::<T, K>(alloc, params, &text, out),
        Err(InputFault::Failed) => Status::Input,
        Err(InputFault::TooLong) => Status::TooLong {
            limit: limit as u64,
        },
        Err(InputFault::Memory(_)) => Status::Memory,
    }
}

// Answers a text that was read.
fn answer_text<T: TextCommand, K: Sink>(
    alloc: Global,
    params: &T::Params,
    text: &[u8],
    out: &mut K,
) -> Status
    requires { length text.now ≤ (T.command params.now).limit }
    ensures ends { EndsText (T.command params.now) text.now (K.seen out.old) (K.seen out.new) result }
    ensures unwritten { IfNothingWritten result (out.new ≡ out.old) }
{
    let mut checked = match T::check(alloc, params, text) {
        Ok(checked) => checked,
        Err(TextFault::Line { line, reason }) => {
            return Status::Script {
                grammar: T::grammar(params),
                line,
                reason,
            };
        }
        Err(TextFault::Memory) => return Status::Memory,
    };
    let Ok(mut outlet) = Outlet::new(alloc) else {
        return Status::Memory;
    };
    match write_output(&mut checked, params, text, &mut outlet, out) {
        Ok(()) => Status::Done,
        Err(SinkFailed) => Status::Sink,
    }
}

// Writes the whole output through an outlet that keeps nothing yet.
fn write_output<T: TextCommand, K: Sink>(
    checked: &mut T,
    params: &T::Params,
    text: &[u8],
    outlet: &mut Outlet,
    out: &mut K,
) -> Result<(), SinkFailed>
    requires short { length text.now ≤ (T.command params.now).limit }
    requires ready { T.ready params.now checked.old text.now }
    requires empty { outlet.old.kept.items ≡ [] }
    ensures whole { OnOk result ((output : List ℕ) × (T.command params.now).Gives text.now output
        × Appends (K.seen out.old).told output (K.seen out.new).told) }
    ensures part { OnErr result ((output : List ℕ) × (T.command params.now).Gives text.now output
        × AppendsPrefix (K.seen out.old).told output (K.seen out.new).told) }
    ensures quiet { OnOk result ((K.seen out.new).faults ≡ (K.seen out.old).faults) }
    ensures cause { OnErr result (Rose (K.seen out.old).faults (K.seen out.new).faults) }
{
    checked.hand(params, text, outlet, out)?;
    outlet.flush(out)?;
    Ok(())
}
