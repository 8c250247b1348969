//! A tempo in beats per minute.

ghost use Rattle.std.specs.Prelude.{◌≡◌, ◌≤◌, ◌<◌, ◌+◌, ◌*◌, ◌-◌, ◌^◌, ◌∷◌, ◌++◌, ℕ, ℤ, pos, Contains, length, IfSome, IfNone};
ghost use Rattle.std.specs.Char.{digit_value};
ghost use Rattle.std.specs.Fmt.{decimal};
ghost use Rattle.std.specs.Str.Parse.{IsNumeral, digits_value};
ghost use Rattle.lk_base.specs.Rounding.{nearest_of};
ghost use Rattle.link_script.specs.LiveScript.{IsTempo};
ghost use Rattle.link_asks.specs.TempoText.{IsBeatsPerMinute, SaysMillionths};

use link_lines::number_of;
use lk_base::near;
use memchr::memchr;

/// The tempo, in microseconds per beat, that a word says in beats per minute. Memory: none.
pub fn tempo_of(word: &[u8]) -> Option<i64>
    ensures some { IfSome result (λ mpb. IsTempo mpb × IsBeatsPerMinute word.now mpb) }
    ensures none { IfNone result ((mpb : ℤ) → IsTempo mpb → IsBeatsPerMinute word.now mpb → ⊥) }
{
    let Some(millionths) = millionths_of(word, 999) else {
        return None;
    };
    if millionths == 0 {
        return None;
    }
    let mpb = mpb_of(millionths);
    if mpb < 60_060 || 3_000_000 < mpb {
        return None;
    }
    Some(mpb)
}

// The microseconds per beat of so many millionths of a beat per minute.
fn mpb_of(millionths: u64) -> i64
    requires some { 0 < millionths }
    requires low { millionths < 1_000_000_000 }
    ensures { result ≡ nearest_of (pos 60_000_000_000_000) (pos millionths) }
{
    near(60_000_000_000_000, millionths as i128) as i64
}

/// The millionths that a word says of a number with so many wholes at most. Memory: none.
pub fn millionths_of(word: &[u8], most: u64) -> Option<u64>
    requires few { most ≤ 1_000_000 }
    ensures some { IfSome result (λ n. (n < (most + 1) * 1_000_000) × SaysMillionths word.now n) }
    ensures sole { IfSome result (λ n. (m : ℕ) → m < (most + 1) * 1_000_000 → SaysMillionths word.now m → m ≡ n) }
    ensures none { IfNone result ((n : ℕ) → n < (most + 1) * 1_000_000 → SaysMillionths word.now n → ⊥) }
{
    let Some((whole, places)) = cut_at_point(word) else {
        return whole_of(word, most);
    };
    let Some(whole) = number_of(whole, most) else {
        return None;
    };
    let Some(parts) = parts_of(places) else {
        return None;
    };
    Some(whole * 1_000_000 + parts)
}

// What stands before the first point, and what stands after it.
fn cut_at_point(word: &[u8]) -> Option<(&[u8], &[u8])>
    ensures some { IfSome result (λ cut. (word.now ≡ cut.0.now ++ 46 ∷ cut.1.now) × (Contains cut.0.now 46 → ⊥)) }
    ensures none { IfNone result (Contains word.now 46 → ⊥) }
{
    let Some(at) = memchr(b'.', word) else {
        return None;
    };
    Some((&word[..at], &word[at + 1..]))
}

// The millionths of a whole number.
fn whole_of(word: &[u8], most: u64) -> Option<u64>
    requires few { most ≤ 1_000_000 }
    ensures some { IfSome result (λ n. (n < (most + 1) * 1_000_000) × SaysMillionths word.now n) }
    ensures none { IfNone result ((whole : ℕ) → whole ≤ most → word.now ≡ decimal whole → ⊥) }
{
    let Some(whole) = number_of(word, most) else {
        return None;
    };
    Some(whole * 1_000_000)
}

// The millionths that up to six places say.
fn parts_of(places: &[u8]) -> Option<u64>
    ensures some { IfSome result (λ n. IsNumeral 10 places.now × (length places.now ≤ 6)
        × (n ≡ digits_value 10 places.now * 10 ^ (6 - length places.now)) × (n < 1_000_000)) }
    ensures none { IfNone result (IsNumeral 10 places.now → length places.now ≤ 6 → ⊥) }
{
    if places.is_empty() || places.len() > 6 {
        return None;
    }
    let mut value: u64 = 0;
    for byte in places {
        let Some(digit) = digit_of(*byte) else {
            return None;
        };
        value = value * 10 + digit;
    }
    Some(value * weight_of(places.len()))
}

// The value of a digit.
fn digit_of(byte: u8) -> Option<u64>
    ensures some { IfSome result (λ digit. (digit < 10) × (digit ≡ digit_value byte)) }
    ensures none { IfNone result (10 ≤ digit_value byte) }
{
    if byte < b'0' || b'9' < byte {
        return None;
    }
    Some(u64::from(byte - b'0'))
}

// What the last of so many places weighs, in millionths.
fn weight_of(count: usize) -> u64
    requires { count ≤ 6 }
    ensures { result ≡ 10 ^ (6 - count) }
{
    match count {
        0 => 1_000_000,
        1 => 100_000,
        2 => 10_000,
        3 => 1_000,
        4 => 100,
        5 => 10,
        _ => 1,
    }
}
