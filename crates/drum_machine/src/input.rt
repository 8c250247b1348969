//! The pattern on standard input.

ghost use Rattle.std.specs.Prelude.{◌≡◌, IfOk, IfErr, OnOk};
ghost use Rattle.lk_outside.specs.Transfer.{ReadsWhole};
ghost use Rattle.step_sequencer.specs.Pattern.{spelled_of};
ghost use Rattle.drum_machine.specs.Ends.{IsUnread};

use crate::status::Status;
use lk_outside::{InputFault, Source, read_all};
use std::alloc::Global;
use step_sequencer::{Pattern, read_pattern};

/// How many bytes are read at most.
const MOST_BYTES: usize = 4_096;

/// The pattern that the source gives as a whole, or why there is none.
///
/// Waits: in the source. Memory: the text.
pub fn read_input<S: Source>(alloc: Global, input: &mut S) -> Result<Pattern, Status>
    ensures pattern { IfOk result (λ pattern. ReadsWhole (S.seen input.old).told (spelled_of pattern) (S.seen input.new).told) }
    ensures fault { IfErr result (IsUnread (S.seen input.old) (S.seen input.new)) }
    ensures quiet { OnOk result ((S.seen input.new).faults ≡ (S.seen input.old).faults) }
{
    let text = match read_all(alloc, input, MOST_BYTES) {
        Ok(text) => text,
        Err(InputFault::Failed) => return Err(Status::Input),
        Err(InputFault::TooLong) => return Err(Status::TooLong),
        Err(InputFault::Memory(_)) => return Err(Status::Memory),
    };
    match read_pattern(&text) {
        Ok(pattern) => Ok(pattern),
        Err(fault) => Err(Status::Pattern { line: fault.line }),
    }
}
