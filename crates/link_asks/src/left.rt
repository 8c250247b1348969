//! What all that is left of a line says.

ghost use Rattle.std.specs.Prelude.{◌≡◌, ◌∷◌, [], ℕ, ℤ, List, Option, IfSome, IfNone};
ghost use Rattle.std.specs.Fmt.{signed_decimal};
ghost use Rattle.lk_base.specs.Ranges.{IsQuantum, IsWithinLimit};
ghost use Rattle.link_asks.specs.Asks.{time_words};
ghost use Rattle.link_lines.specs.LineWords.{words_left};
ghost use Rattle.link_script.specs.LiveScript.{IsTempo};

use client_state::QUANTUM_MAX;
use link_lines::{amount_of, is_end, next_word, signed_of};

/// The word that is left.
pub(crate) fn word_left(left: &[u8]) -> Option<&[u8]>
    ensures some { IfSome result (λ word. words_left left.now ≡ word.now ∷ []) }
    ensures none { IfNone result ((word : List ℕ) → words_left left.now ≡ word ∷ [] → ⊥) }
{
    let Some((word, left)) = next_word(left) else {
        return None;
    };
    if !is_end(left) {
        return None;
    }
    Some(word)
}

/// The number within 2^60 of 0 that is left.
pub(crate) fn signed_left(left: &[u8]) -> Option<i64>
    ensures some { IfSome result (λ number. IsWithinLimit number × (words_left left.now ≡ signed_decimal number ∷ [])) }
    ensures none { IfNone result ((number : ℤ) → IsWithinLimit number → words_left left.now ≡ signed_decimal number ∷ [] → ⊥) }
{
    signed_of(word_left(left)?)
}

/// The tempo, in microseconds per beat, that is left.
pub(crate) fn tempo_left(left: &[u8]) -> Option<i64>
    ensures some { IfSome result (λ mpb. IsTempo mpb × (words_left left.now ≡ signed_decimal mpb ∷ [])) }
    ensures none { IfNone result ((mpb : ℤ) → IsTempo mpb → words_left left.now ≡ signed_decimal mpb ∷ [] → ⊥) }
{
    amount_of(word_left(left)?, 60_060, 3_000_000)
}

/// The quantum that is left, from 0 to 2^40 microbeats.
pub(crate) fn quantum_left(left: &[u8]) -> Option<i64>
    ensures some { IfSome result (λ quantum. IsQuantum quantum × (words_left left.now ≡ signed_decimal quantum ∷ [])) }
    ensures none { IfNone result ((quantum : ℤ) → IsQuantum quantum → words_left left.now ≡ signed_decimal quantum ∷ [] → ⊥) }
{
    amount_of(word_left(left)?, 0, QUANTUM_MAX as u64)
}

/// A time that is left, or that none is.
pub(crate) fn time_left(left: &[u8]) -> Option<Option<i64>>
    ensures some { IfSome result (λ at. IfSome at IsWithinLimit × (words_left left.now ≡ time_words at)) }
    ensures none { IfNone result ((at : Option ℤ) → IfSome at IsWithinLimit → words_left left.now ≡ time_words at → ⊥) }
{
    if is_end(left) {
        return Some(None);
    }
    let Some(at) = signed_left(left) else {
        return None;
    };
    Some(Some(at))
}

/// The two numbers within 2^60 of 0 that are left.
pub(crate) fn pair_left(left: &[u8]) -> Option<(i64, i64)>
    ensures some { IfSome result (λ pair. (IsWithinLimit pair.0 × IsWithinLimit pair.1)
        × (words_left left.now ≡ signed_decimal pair.0 ∷ signed_decimal pair.1 ∷ [])) }
    ensures none { IfNone result ((m n : ℤ) → IsWithinLimit m → IsWithinLimit n
        → words_left left.now ≡ signed_decimal m ∷ signed_decimal n ∷ [] → ⊥) }
{
    let Some((word, left)) = next_word(left) else {
        return None;
    };
    let Some(first) = signed_of(word) else {
        return None;
    };
    let Some(second) = signed_left(left) else {
        return None;
    };
    Some((first, second))
}
