//! A line of two signed numbers.

ghost use Rattle.std.specs.Prelude.{◌≡◌, ℤ, [], ◌∷◌, IfSome, IfNone};
ghost use Rattle.std.specs.Fmt.{signed_decimal};
ghost use Rattle.lk_base.specs.Ranges.{IsWithinLimit};
ghost use Rattle.link_lines.specs.LineWords.{words_of};
ghost use Rattle.link_text.specs.PairLine.{IsPairLine};

use crate::values::signed_in;
use link_lines::{first_word, is_end, signed_of};

/// The two numbers that a line says, each within 2^60 of 0, with a space between them and nothing else. Memory: none.
pub fn pair_of(line: &[u8]) -> Option<(i64, i64)>
    ensures some { IfSome result (λ pair. IsPairLine line.now pair.0 pair.1) }
    ensures none { IfNone result ((first second : ℤ) → IsPairLine line.now first second → ⊥) }
{
    pair_in(line)
}

// What the words of such a line say.
fn pair_in(line: &[u8]) -> Option<(i64, i64)>
    ensures some { IfSome result (λ pair. IsWithinLimit pair.0 × (IsWithinLimit pair.1
        × (words_of line.now ≡ signed_decimal pair.0 ∷ signed_decimal pair.1 ∷ []))) }
    ensures none { IfNone result ((first second : ℤ) → IsWithinLimit first → IsWithinLimit second
        → words_of line.now ≡ signed_decimal first ∷ signed_decimal second ∷ [] → ⊥) }
{
    let (word, left) = first_word(line);
    let Some(first) = signed_of(word) else {
        return None;
    };
    let Some((second, left)) = signed_in(left) else {
        return None;
    };
    if !is_end(left) {
        return None;
    }
    Some((first, second))
}
