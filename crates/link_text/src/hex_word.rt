//! Bytes, as hex digits of either case.

ghost use Rattle.std.specs.Prelude.{◌≡◌, ◌≤◌, ◌*◌, ◌∷◌, [], ℕ, List, true, length, IfSome, IfNone, Some, Ok};
ghost use Rattle.std.specs.Bool.{OnTrue, OnFalse};
ghost use Rattle.std.specs.List.{AllPass};
ghost use Rattle.hex.specs.Hex.{decode_of, hex_digit_value, is_hex_digit};
ghost use Rattle.link_text.specs.HexWord.{IsHexWord, hex_bytes};
ghost use Rattle.link_lines.specs.LineWords.{words_left};
ghost use Rattle.link_script.specs.ReplayScript.{IsHexOf};

use arrayvec::ArrayVec;
use link_lines::is_word;
use lk_base::Wire;

/// The word for the bytes of a datagram, if it is all that is left of a line: at most 1,026 hex digits, and a hyphen for none.
pub(crate) fn hex_left(left: &[u8]) -> Option<&[u8]>
    ensures some { IfSome result (λ hex. IsHexWord hex.now × (words_left left.now ≡ hex.now ∷ [])) }
    ensures none { IfNone result ((bytes hex : List ℕ) → length bytes ≤ 513 → IsHexOf hex bytes
        → words_left left.now ≡ hex ∷ [] → ⊥) }
{
    if left.is_empty() {
        return None;
    }
    // No space is a digit, so the word's end needn't be looked for.
    let hex = &left[1..];
    if !is_hex_word(hex) {
        return None;
    }
    Some(hex)
}

/// The bytes that a word says.
pub(crate) fn bytes_of(hex: &[u8]) -> Wire
    requires { IsHexWord hex.now }
    ensures { result.items ≡ hex_bytes hex.now }
{
    if is_word(hex, b"-") {
        return ArrayVec::new();
    }
    let mut bytes = Wire::from([0u8; 513]);
    bytes.truncate(hex.len() / 2);
    decode(hex, bytes.as_mut_slice());
    bytes
}

/// Whether a word says the bytes of a datagram.
pub(crate) fn is_hex_word(word: &[u8]) -> bool
    ensures good { OnTrue result (IsHexWord word.now) }
    ensures bad { OnFalse result ((bytes : List ℕ) → length bytes ≤ 513 → IsHexOf word.now bytes → ⊥) }
{
    if is_word(word, b"-") {
        return true;
    }
    if word.len() < 2 || word.len() > 1_026 || word.len() % 2 == 1 {
        return false;
    }
    are_digits(word)
}

// Whether all characters are hex digits. It doesn't stop at one that is none: so a build looks at many at once.
fn are_digits(word: &[u8]) -> bool
    ensures good { OnTrue result (AllPass is_hex_digit word.now) }
    ensures bad { OnFalse result (AllPass is_hex_digit word.now → ⊥) }
{
    let mut all_digits = true;
    for character in word {
        all_digits &= is_hex_digit(*character);
    }
    all_digits
}

fn is_hex_digit(character: u8) -> bool
    ensures { result ≡ is_hex_digit character }
{
    matches!(character, b'0'..=b'9' | b'A'..=b'F' | b'a'..=b'f')
}

// Writes the bytes that hex digits say. `hex` would too, but asks of each digit which kind it has, and a build then guesses: it takes four
// to ten times as long as this, which has no question and is done for many digits at once.
fn decode(digits: &[u8], bytes: &mut [u8])
    requires digits { AllPass is_hex_digit digits.now }
    requires room { length digits.now ≡ 2 * length bytes.old }
    ensures { decode_of digits.now ≡ Ok bytes.new }
{
    for i in 0..bytes.len() {
        bytes[i] = digit_value(digits[2 * i]) * 16 + digit_value(digits[2 * i + 1]);
    }
}

// The value of a digit: 0 to 9 are 48 to 57, A to F are 65 to 70, and a to f are 97 to 102.
fn digit_value(digit: u8) -> u8
    requires { is_hex_digit digit ≡ true }
    ensures value { hex_digit_value digit ≡ Some result }
    ensures small { result ≤ 15 }
{
    digit % 16 + digit / 64 * 9
}
