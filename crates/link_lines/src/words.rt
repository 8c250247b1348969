//! A line word by word, from the front.

ghost use Rattle.std.specs.Prelude.{◌≡◌, ◌↔◌, ◌∷◌, [], IsTrue, IfSome, IfNone};
ghost use Rattle.link_lines.specs.LineWords.{words_of, words_left};

use crate::word::cut_at;

/// The first word of a line, and what is left behind it: nothing, or a space and the words that follow.
pub fn first_word(line: &[u8]) -> (&[u8], &[u8])
    ensures { words_of line.now ≡ result.0.now ∷ words_left result.1.now }
{
    match cut_at(line, b' ') {
        Some((word, _)) => (word, &line[word.len()..]),
        None => (line, &line[line.len()..]),
    }
}

/// The next word of what is left of a line, and what is left behind it.
pub fn next_word(left: &[u8]) -> Option<(&[u8], &[u8])>
    ensures some { IfSome result (λ found. words_left left.now ≡ found.0.now ∷ words_left found.1.now) }
    ensures none { IfNone result (words_left left.now ≡ []) }
{
    if left.is_empty() {
        return None;
    }
    Some(first_word(&left[1..]))
}

/// Whether no word is left.
pub fn is_end(left: &[u8]) -> bool
    ensures { IsTrue result ↔ (words_left left.now ≡ []) }
{
    left.is_empty()
}

/// Whether a word is just this one.
pub fn is_word(word: &[u8], wanted: &[u8]) -> bool
    ensures { IsTrue result ↔ (word.now ≡ wanted.now) }
{
    word == wanted
}
