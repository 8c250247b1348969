//! What options and flags say.

ghost use Rattle.std.specs.Prelude.{ℕ, ℤ, Bool, map, IfOk, IfErr, IfSome, IfNone};
ghost use Rattle.std.specs.String.{string_bytes};
ghost use Rattle.link_script.specs.LiveScript.{IsTempo};
ghost use Rattle.session_server.specs.Spans.{IsSpan};
ghost use Rattle.session_server.specs.Words.{IsFaultIn, SaysFile, SaysFlag, SaysHours, SaysNumber, SaysOption, SaysTempo};

use crate::fault::WordsFault;
use crate::parts::sole;
use link_asks::{millionths_of, tempo_of};

/// The fastest tempo and the slowest, in microseconds per beat, and that of 120 beats a minute.
const FASTEST: u64 = 60_060;

const SLOWEST: u64 = 3_000_000;

const TEMPO: i64 = 500_000;

/// The most whole hours, and how many microseconds a millionth of one has.
const MOST_HOURS: u64 = 8_760;

const MICROSECONDS: u64 = 3_600;

/// The number that the option of a name says, from the least to the most, or its default; none where it says none, or is given more than
/// once.
///
/// Waits: no. Memory: none.
pub fn option_in(words: &[String], name: &str, least: u64, most: u64, default: u64) -> Option<u64>
    ensures some { IfSome result (SaysOption (map string_bytes words.now) name.now least most default) }
    ensures none { IfNone result ((n : ℕ) → SaysOption (map string_bytes words.now) name.now least most default n → ⊥) }
{
    match sole(words, name, name) {
        Ok(Some(given)) => number_in(given.text, least, most),
        Ok(None) => Some(default),
        Err(_) => None,
    }
}

/// Whether a flag is given; none where it is given more than once.
///
/// Waits: no. Memory: none.
pub fn flag_in(words: &[String], name: &str) -> Option<bool>
    ensures some { IfSome result (SaysFlag (map string_bytes words.now) name.now) }
    ensures none { IfNone result ((flag : Bool) → SaysFlag (map string_bytes words.now) name.now flag → ⊥) }
{
    match sole(words, name, name) {
        Ok(given) => Some(given.is_some()),
        Err(_) => None,
    }
}

/// Whether the option of a name names a file; none where it names none, or is given more than once.
///
/// Waits: no. Memory: none.
pub fn file_in(words: &[String], name: &str) -> Option<bool>
    ensures some { IfSome result (SaysFile (map string_bytes words.now) name.now) }
    ensures none { IfNone result ((file : Bool) → SaysFile (map string_bytes words.now) name.now file → ⊥) }
{
    match sole(words, name, name) {
        Ok(Some(given)) => if given.text.is_empty() {
            None
        } else {
            Some(true)
        },
        Ok(None) => Some(false),
        Err(_) => None,
    }
}

/// The tempo that words say, in microseconds per beat; none where they say none, or more than one.
///
/// Waits: no. Memory: none.
pub fn tempo_in(words: &[String]) -> Option<i64>
    ensures some { IfSome result (λ mpb. SaysTempo (map string_bytes words.now) mpb × IsTempo mpb) }
    ensures none { IfNone result ((mpb : ℤ) → SaysTempo (map string_bytes words.now) mpb → ⊥) }
{
    match sole(words, "--mpb", "--bpm") {
        Ok(Some(given)) if given.name == "--mpb" => {
            let mpb = number_in(given.text, FASTEST, SLOWEST)?;
            Some(mpb as i64)
        }
        Ok(Some(given)) => tempo_of(given.text.as_bytes()),
        Ok(None) => Some(TEMPO),
        Err(_) => None,
    }
}

/// How long clients are served, in microseconds, by the hours that words say; `None` is without end.
///
/// Waits: no. Memory: none.
pub fn span_in(words: &[String]) -> Result<Option<i64>, WordsFault>
    ensures says { IfOk result (SaysHours (map string_bytes words.now)) }
    ensures range { IfOk result IsSpan }
    ensures fault { IfErr result (IsFaultIn (map string_bytes words.now)) }
{
    let Ok(given) = sole(words, "--hours", "--hours") else {
        return Err(WordsFault::Hours);
    };
    let Some(given) = given else {
        return Ok(None);
    };
    let Some(millionths) = millionths_of(given.text.as_bytes(), MOST_HOURS) else {
        return Err(WordsFault::Hours);
    };
    if millionths == 0 || MOST_HOURS * 1_000_000 < millionths {
        return Err(WordsFault::Hours);
    }
    Ok(Some((millionths * MICROSECONDS) as i64))
}

// The number that a word says, from the least to the most.
fn number_in(word: &str, least: u64, most: u64) -> Option<u64>
    ensures some { IfSome result (SaysNumber word.now least most) }
    ensures none { IfNone result ((n : ℕ) → SaysNumber word.now least most n → ⊥) }
{
    match word.parse::<u64>() {
        Ok(n) => if least <= n && n <= most {
            Some(n)
        } else {
            None
        },
        Err(_) => None,
    }
}
