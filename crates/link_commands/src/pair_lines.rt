//! The grammar of pairs, one a line.

ghost use Rattle.std.specs.Prelude.{◌≤◌, ◌-◌, ◌^◌, length, IfErr, IsErrOf, OnOk};
ghost use Rattle.link_commands.specs.PairLines.{IsPairText};
ghost use Rattle.link_commands.specs.Statuses.{filter_command};
ghost use Rattle.link_commands.specs.TextFaults.{IsTextFault};

use crate::reason::Reason;
use crate::text_fault::TextFault;
use link_text::{explain_pair, line_at, pair_of};

/// Checks that each line says a pair. The error is the first line at fault.
pub fn check_pairs(text: &[u8]) -> Result<(), TextFault>
    requires { length text.now ≤ 2 ^ 32 - 2 }
    ensures lines { OnOk result (IsPairText text.now) }
    ensures fault { IfErr result (IsTextFault filter_command text.now) }

    // No memory is taken.
    ensures memory { ¬ (IsErrOf result TextFault.Memory) }
{
    let mut at = 0;
    let mut number: u32 = 1;
    while at < text.len() {
        let (line, next) = line_at(text, at);
        if pair_of(line).is_none() {
            return Err(TextFault::Line {
                line: number,
                reason: Reason::Pair(explain_pair(line)),
            });
        }
        at = next;
        number += 1;
    }
    Ok(())
}
