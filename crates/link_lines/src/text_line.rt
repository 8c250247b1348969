//! The lines of a text, each ended by a line feed, which the last may lack.

ghost use Rattle.std.specs.Prelude.{◌≡◌, ◌<◌, ◌≤◌, ◌∷◌, length, drop};
ghost use Rattle.link_lines.specs.Lines.{lines_of};

use crate::word::cut_at;

/// The line that begins at `at`, and where the next one begins.
pub fn line_at(text: &[u8], at: usize) -> (&[u8], usize)
    requires { at < length text.now }
    ensures lines { lines_of (drop at text.now) ≡ result.0.now ∷ lines_of (drop result.1 text.now) }
    ensures further { at < result.1 }
    ensures within { result.1 ≤ length text.now }
    ensures short { length result.0.now ≤ length text.now }
{
    let rest = &text[at..];
    match cut_at(rest, b'\n') {
        Some((line, after)) => (line, text.len() - after.len()),
        None => (rest, text.len()),
    }
}
