//! The lines that a client sends to a node under control: reading one.

ghost use Rattle.std.specs.Prelude.{◌≡◌, ◌∷◌, [], ℤ, codes, IfSome, IfNone};
ghost use Rattle.std.specs.Fmt.{signed_decimal};
ghost use Rattle.lk_base.specs.Ranges.{IsWithinLimit};
ghost use Rattle.link_text.specs.ControlLine.{IsAsked, IsControlLine, control_words};
ghost use Rattle.link_lines.specs.LineWords.{words_left, words_of};
ghost use Rattle.link_script.specs.LiveScript.{IsTempo};

use crate::live_read::{signed_left, tempo_left};
use link_lines::{first_word, is_end, is_word};

/// How many bytes a line has at most that asks for something.
const LONGEST: usize = 25;

/// What a line of a client asks for.
#[derive(Clone, Copy, Debug, PartialEq, Eq)]
pub enum ControlLine {
    /// How the session stands.
    Status,
    /// Another tempo, in microseconds per beat.
    Tempo(i64),
    Play,
    Stop,
    /// The beat at a time, in microseconds.
    Beat(i64),
    /// The time of a beat, in microbeats.
    Time(i64),
}

/// What a line, without its line feed, asks for; none where it is spelled otherwise or out of range. Memory: none.
pub fn control_line_of(line: &[u8]) -> Option<ControlLine>
    ensures { IsAsked line.now result }
{
    if line.len() > LONGEST {
        return None;
    }
    control_line_in(line)
}

// What the words of such a line ask for.
fn control_line_in(line: &[u8]) -> Option<ControlLine>
    ensures some { IfSome result (λ asked. IsControlLine asked × (words_of line.now ≡ control_words asked)) }
    ensures none { IfNone result ((asked : ControlLine) → IsControlLine asked → words_of line.now ≡ control_words asked → ⊥) }
{
    let (word, left) = first_word(line);
    if is_word(word, b"tempo") {
        return tempo_line(left);
    }
    if is_word(word, b"beat") {
        return beat_line(left);
    }
    if is_word(word, b"time") {
        return time_line(left);
    }
    if !is_end(left) {
        return None;
    }
    if is_word(word, b"status") {
        return Some(ControlLine::Status);
    }
    if is_word(word, b"play") {
        return Some(ControlLine::Play);
    }
    if is_word(word, b"stop") {
        return Some(ControlLine::Stop);
    }
    None
}

// Another tempo, at the end of the line.
fn tempo_line(left: &[u8]) -> Option<ControlLine>
    ensures some { IfSome result (λ asked. IsControlLine asked × (codes "tempo" ∷ words_left left.now ≡ control_words asked)) }
    ensures none { IfNone result ((mpb : ℤ) → IsTempo mpb → words_left left.now ≡ signed_decimal mpb ∷ [] → ⊥) }
{
    let Some(mpb) = tempo_left(left) else {
        return None;
    };
    Some(ControlLine::Tempo(mpb))
}

// The time whose beat is asked for, at the end of the line.
fn beat_line(left: &[u8]) -> Option<ControlLine>
    ensures some { IfSome result (λ asked. IsControlLine asked × (codes "beat" ∷ words_left left.now ≡ control_words asked)) }
    ensures none { IfNone result ((time : ℤ) → IsWithinLimit time → words_left left.now ≡ signed_decimal time ∷ [] → ⊥) }
{
    let Some(time) = signed_left(left) else {
        return None;
    };
    Some(ControlLine::Beat(time))
}

// The beat whose time is asked for, at the end of the line.
fn time_line(left: &[u8]) -> Option<ControlLine>
    ensures some { IfSome result (λ asked. IsControlLine asked × (codes "time" ∷ words_left left.now ≡ control_words asked)) }
    ensures none { IfNone result ((beat : ℤ) → IsWithinLimit beat → words_left left.now ≡ signed_decimal beat ∷ [] → ⊥) }
{
    let Some(beat) = signed_left(left) else {
        return None;
    };
    Some(ControlLine::Time(beat))
}
