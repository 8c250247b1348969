//! Truth values, as 1 and 0.

ghost use Rattle.std.specs.Prelude.{◌≡◌, Bool, IfSome, IfNone};
ghost use Rattle.link_lines.specs.Words.{truth_text_of};

/// The truth value that a word says.
pub fn truth_of(word: &[u8]) -> Option<bool>
    ensures some { IfSome result (λ truth. word.now ≡ truth_text_of truth) }
    ensures none { IfNone result ((truth : Bool) → word.now ≡ truth_text_of truth → ⊥) }
{
    if word.len() != 1 {
        return None;
    }
    let digit = word[0];
    if digit == b'1' {
        return Some(true);
    }
    if digit == b'0' {
        return Some(false);
    }
    None
}
