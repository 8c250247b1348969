//! The line that a client is sending: what is kept of it, and what that asks for.

ghost use Rattle.std.specs.Prelude.{◌≡◌, ℕ, List, ◌∷◌, ◌++◌, [], take, IfSome};
ghost use Rattle.link_text.specs.ControlLine.{IsAsked, IsControlLine};

use arrayvec::ArrayVec;
use link_text::{ControlLine, control_line_of, control_lines};

/// The first 65 bytes of a line: no longer one asks for anything.
pub(crate) type LineHead = ArrayVec<u8, 65>;

/// Keeps a further byte of the line, if it is among the first. Memory: none.
pub(crate) fn keep(line: &mut LineHead, byte: u8)
    ensures { (whole : List ℕ) → line.old.items ≡ take 65 whole → line.new.items ≡ take 65 (whole ++ byte ∷ []) }
{
    if line.is_full() {
        return;
    }
    line.push(byte);
}

/// What the line asks for whose first 65 bytes were kept. Memory: none.
pub(crate) fn asked_in(line: &[u8]) -> Option<ControlLine>
    ensures asked { (whole : List ℕ) → line.now ≡ take 65 whole → IsAsked whole result }
    ensures range { IfSome result IsControlLine }
{
    // A law, for the proof.
    control_lines();
    control_line_of(line)
}
