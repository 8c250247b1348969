//! Numbers, in decimal digits without a leading zero.

ghost use Rattle.std.specs.Prelude.{◌≡◌, ℕ, ℤ, pos, ◌≤◌, ◌<◌, ◌+◌, ◌*◌, ◌≤ℤ◌, ◌^◌, ◌⊎◌, List, ◌∷◌, ◌++◌, length, slice_index, ◌↔◌, IsTrue, IfSome, IfNone};
ghost use Rattle.std.specs.Char.{digit_value};
ghost use Rattle.std.specs.Str.Parse.{AllDigits, digits_value};
ghost use Rattle.std.specs.Fmt.{decimal, signed_decimal};
ghost use Rattle.lk_base.specs.Ranges.{IsWithinLimit};

use crate::word::{after, cut_at};
use lk_base::LIMIT;

/// The number that a word says, up to `limit`.
pub fn number_of(word: &[u8], limit: u64) -> Option<u64>
    ensures some { IfSome result (λ n. (n ≤ limit) × (word.now ≡ decimal n)) }
    ensures none { IfNone result ((n : ℕ) → n ≤ limit → word.now ≡ decimal n → ⊥) }
{
    let Some(value) = value_of(word) else {
        return None;
    };
    if has_leading_zero(word) {
        return None;
    }
    if value > limit {
        return None;
    }
    Some(value)
}

/// The number that a word says, from `least` to `limit`, as a signed one.
pub fn amount_of(word: &[u8], least: u64, limit: u64) -> Option<i64>
    requires { limit < 2 ^ 63 }
    ensures some { IfSome result (λ n. (pos least ≤ℤ n) × (n ≤ℤ pos limit)
        × (word.now ≡ signed_decimal n)) }
    ensures none { IfNone result ((n : ℤ) → pos least ≤ℤ n → n ≤ℤ pos limit →
        word.now ≡ signed_decimal n → ⊥) }
{
    let Some(value) = number_of(word, limit) else {
        return None;
    };
    if value < least {
        return None;
    }
    Some(value as i64)
}

/// The number that stands before the first `end`, up to `limit`, and what stands after that `end`.
pub(crate) fn number_before(bytes: &[u8], end: u8, limit: u64) -> Option<(u64, &[u8])>
    requires { (end < 48) ⊎ (57 < end) }
    ensures some { IfSome result (λ found. (found.0 ≤ limit)
        × (bytes.now ≡ decimal found.0 ++ end ∷ found.1.now)) }
    ensures none { IfNone result ((n : ℕ) (rest : List ℕ) →
        n ≤ limit → bytes.now ≡ decimal n ++ end ∷ rest → ⊥) }
{
    let Some((word, rest)) = cut_at(bytes, end) else {
        return None;
    };
    let Some(n) = number_of(word, limit) else {
        return None;
    };
    Some((n, rest))
}

/// The number that a word says, within 2^60 of 0: a minus sign stands before one below 0.
pub fn signed_of(word: &[u8]) -> Option<i64>
    ensures some { IfSome result (λ n. IsWithinLimit n × (word.now ≡ signed_decimal n)) }
    ensures none { IfNone result ((n : ℤ) → IsWithinLimit n → word.now ≡ signed_decimal n → ⊥) }
{
    let Some(digits) = after(word, b"-") else {
        return amount_of(word, 0, LIMIT as u64);
    };
    let Some(value) = number_of(digits, LIMIT as u64) else {
        return None;
    };
    if value == 0 {
        return None;
    }
    Some(-(value as i64))
}

// The value of one digit or more, below 2^64.
fn value_of(word: &[u8]) -> Option<u64>
    ensures some { IfSome result (λ n. (0 < length word.now) × AllDigits 10 word.now
        × (digits_value 10 word.now ≡ n)) }
    ensures none { IfNone result (0 < length word.now → AllDigits 10 word.now →
        2 ^ 64 ≤ digits_value 10 word.now) }
{
    if word.is_empty() {
        return None;
    }
    let mut value: u64 = 0;
    for digit in word {
        let Some(next) = with_digit(value, *digit) else {
            return None;
        };
        value = next;
    }
    Some(value)
}

// The number with one more digit after it, below 2^64.
fn with_digit(value: u64, digit: u8) -> Option<u64>
    ensures some { IfSome result (λ n. (digit_value digit < 10) × (n ≡ value * 10 + digit_value digit)) }
    ensures none { IfNone result (digit_value digit < 10 → 2 ^ 64 ≤ value * 10 + digit_value digit) }
{
    if digit < b'0' || digit > b'9' {
        return None;
    }
    let Some(tens) = value.checked_mul(10) else {
        return None;
    };
    tens.checked_add(u64::from(digit - b'0'))
}

fn has_leading_zero(word: &[u8]) -> bool
    ensures { IsTrue result ↔ ((slice_index word.now 0 ≡ 48) × (1 < length word.now)) }
{
    word.len() > 1 && word[0] == b'0'
}
