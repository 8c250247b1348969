//! The word that clients greet with.

ghost use Rattle.std.specs.Prelude.{◌≡◌, ◌≤◌, ◌<◌, ◌⊎◌, ◌==◌, length, IfSome, IfNone};
ghost use Rattle.std.specs.List.{before_first};
ghost use Rattle.std.specs.Str.Lines.{strip_carriage_return};
ghost use Rattle.session_server.specs.Secret.{first_line_of};

/// How many bytes it has at most.
const MOST: usize = 100;

/// The secret that the text of a file says; none where its first line is empty or too long.
///
/// Waits: no. Memory: none.
pub fn secret_of(text: &[u8]) -> Option<&[u8]>
    ensures some { IfSome result (λ word. (word.now ≡ first_line_of text.now) × (1 ≤ length word.now) × (length word.now ≤ 100)) }
    ensures none { IfNone result ((length (first_line_of text.now) ≡ 0) ⊎ (100 < length (first_line_of text.now))) }
{
    let word = without_return(line_of(text));
    if word.is_empty() || word.len() > MOST {
        return None;
    }
    Some(word)
}

// What stands before the first line feed.
fn line_of(text: &[u8]) -> &[u8]
    ensures { result.now ≡ before_first (λ byte. byte == 10) text.now }
{
    let mut end = 0;
    while end < text.len() {
        if text[end] == b'\n' {
            return &text[..end];
        }
        end += 1;
    }
    text
}

// The line without a carriage return at its end.
fn without_return(line: &[u8]) -> &[u8]
    ensures { result.now ≡ strip_carriage_return line.now }
{
    match line {
        [front @ .., b'\r'] => front,
        _ => line,
    }
}
