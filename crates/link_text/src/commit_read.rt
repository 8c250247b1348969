//! Reading what a line says of a commit.

ghost use Rattle.std.specs.Prelude.{◌≡◌, ◌∷◌, ◌++◌, ℕ, ℤ, List, Option, IfSome, IfNone};
ghost use Rattle.std.specs.Fmt.{signed_decimal};
ghost use Rattle.std.specs.Option.{ForSome};
ghost use Rattle.lk_base.specs.Ranges.{IsQuantum};
ghost use Rattle.lk_base.specs.Timeline.{IsTidy};
ghost use Rattle.lk_base.specs.declared.start.ClientStart.{ClientStart};
ghost use Rattle.lk_base.specs.declared.timeline.Timeline.{Timeline};
ghost use Rattle.client_state.specs.Commit.{IsTidyCommit, IsTidyStart};
ghost use Rattle.client_state.specs.declared.commit.Commit.{Commit};
ghost use Rattle.link_text.specs.CommitWords.{LeavesQuantum, LeavesStart};
ghost use Rattle.link_lines.specs.LineWords.{words_left};
ghost use Rattle.link_script.specs.ReplayScript.{commit_words, quantum_words, start_words, timeline_words};
ghost use Rattle.link_lines.specs.Words.{truth_text_of};

use crate::values::{quantum_in, signed_in, tempo_in, truth_in};
use client_state::Commit;
use link_lines::{is_end, is_word, next_word};
use lk_base::{ClientStart, Timeline};

/// The commit that all that is left of a line says: when it was made, and a timeline, a start and a quantum, each where it is there.
pub(crate) fn commit_of(left: &[u8]) -> Option<Commit>
    ensures some { IfSome result (λ commit. IsTidyCommit commit × (words_left left.now ≡ commit_words commit)) }
    ensures none { IfNone result ((commit : Commit) → IsTidyCommit commit
        → words_left left.now ≡ commit_words commit → ⊥) }
{
    let Some((at, left)) = signed_in(left) else {
        return None;
    };
    let Some((timeline, left)) = timeline_part(left) else {
        return None;
    };
    let Some((start, left)) = start_part(left) else {
        return None;
    };
    let Some(quantum) = quantum_part(left) else {
        return None;
    };
    Some(Commit {
        timeline,
        start,
        quantum,
        at,
    })
}

// The timeline, if the next word is `t`, and what is left behind it.
fn timeline_part(left: &[u8]) -> Option<(Option<Timeline>, &[u8])>
    ensures some { IfSome result (λ found. ForSome found.0 IsTidy
        × (words_left left.now ≡ timeline_words found.0 ++ words_left found.1.now)) }
    ensures follows { IfSome result (λ found. LeavesStart (words_left left.now) (words_left found.1.now)) }
    ensures none { IfNone result ((tl : Option Timeline) (start : Option ClientStart) (quantum : Option ℤ) → ForSome tl IsTidy
        → words_left left.now ≡ timeline_words tl ++ (start_words start ++ quantum_words quantum) → ⊥) }
{
    let Some((word, rest)) = next_word(left) else {
        return Some((None, left));
    };
    if !is_word(word, b"t") {
        return Some((None, left));
    }
    let Some((timeline, rest)) = timeline_in(rest) else {
        return None;
    };
    Some((Some(timeline), rest))
}

// The start, if the next word is `s`, and what is left behind it.
fn start_part(left: &[u8]) -> Option<(Option<ClientStart>, &[u8])>
    ensures some { IfSome result (λ found. ForSome found.0 IsTidyStart
        × (words_left left.now ≡ start_words found.0 ++ words_left found.1.now)) }
    ensures follows { IfSome result (λ found. LeavesQuantum (words_left left.now) (words_left found.1.now)) }
    ensures none { IfNone result ((start : Option ClientStart) (quantum : Option ℤ) → ForSome start IsTidyStart
        → words_left left.now ≡ start_words start ++ quantum_words quantum → ⊥) }
{
    let Some((word, rest)) = next_word(left) else {
        return Some((None, left));
    };
    if !is_word(word, b"s") {
        return Some((None, left));
    }
    let Some((start, rest)) = start_in(rest) else {
        return None;
    };
    Some((Some(start), rest))
}

// The quantum, if the next word is `q`, at the end of the line.
fn quantum_part(left: &[u8]) -> Option<Option<i64>>
    ensures some { IfSome result (λ quantum. ForSome quantum IsQuantum × (words_left left.now ≡ quantum_words quantum)) }
    ensures none { IfNone result ((quantum : Option ℤ) → ForSome quantum IsQuantum
        → words_left left.now ≡ quantum_words quantum → ⊥) }
{
    let Some((word, rest)) = next_word(left) else {
        return Some(None);
    };
    if !is_word(word, b"q") {
        return None;
    }
    let Some((quantum, rest)) = quantum_in(rest) else {
        return None;
    };
    if !is_end(rest) {
        return None;
    }
    Some(Some(quantum))
}

// A tempo, a beat and a time, and what is left behind them.
fn timeline_in(left: &[u8]) -> Option<(Timeline, &[u8])>
    ensures some { IfSome result (λ found. IsTidy found.0
        × (words_left left.now ≡ signed_decimal found.0.mpb ∷ signed_decimal found.0.beat ∷ signed_decimal found.0.time
        ∷ words_left found.1.now)) }
    ensures none { IfNone result ((tl : Timeline) (rest : List (List ℕ)) → IsTidy tl
        → words_left left.now ≡ signed_decimal tl.mpb ∷ signed_decimal tl.beat ∷ signed_decimal tl.time ∷ rest → ⊥) }
{
    let Some((mpb, left)) = tempo_in(left) else {
        return None;
    };
    let Some((beat, left)) = signed_in(left) else {
        return None;
    };
    let Some((time, left)) = signed_in(left) else {
        return None;
    };
    Some((Timeline { mpb, beat, time }, left))
}

// Whether it plays, a time and a stamp, and what is left behind them.
fn start_in(left: &[u8]) -> Option<(ClientStart, &[u8])>
    ensures some { IfSome result (λ found. IsTidyStart found.0
        × (words_left left.now ≡ truth_text_of found.0.playing ∷ signed_decimal found.0.time
        ∷ signed_decimal found.0.stamp ∷ words_left found.1.now)) }
    ensures none { IfNone result ((start : ClientStart) (rest : List (List ℕ)) → IsTidyStart start
        → words_left left.now ≡ truth_text_of start.playing ∷ signed_decimal start.time ∷ signed_decimal start.stamp ∷ rest
        → ⊥) }
{
    let Some((playing, left)) = truth_in(left) else {
        return None;
    };
    let Some((time, left)) = signed_in(left) else {
        return None;
    };
    let Some((stamp, left)) = signed_in(left) else {
        return None;
    };
    Some((
        ClientStart {
            playing,
            time,
            stamp,
        },
        left,
    ))
}
