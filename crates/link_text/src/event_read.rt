//! Reading the line of an event.

ghost use Rattle.std.specs.Prelude.{◌≤◌, ◌<◌, ℕ, codes, IfSome, IfNone};
ghost use Rattle.link_node.specs.Event.{EventValue};
ghost use Rattle.link_text.specs.EventDetails.{SaysDetails};
ghost use Rattle.link_lines.specs.LineWords.{words_left};
ghost use Rattle.link_script.specs.ReplayScript.{IsEventLine};
ghost use Rattle.link_text.specs.SaidEvent.{HasHex, said_value};

use crate::commit_read::commit_of;
use crate::hex_word::hex_left;
use crate::said_event::SaidEvent;
use crate::values::{endpoint_in, moment_in, number_in};
use link_lines::{first_word, is_end, is_word};
use lk_base::Gate;

/// The greatest number of an audio commit: 2^60 - 1.
pub(crate) const AUDIO_MAX: u64 = 1_152_921_504_606_846_975;

/// The event that a line says, where there are so many gates and the last audio commit had this number.
pub(crate) fn said_of(line: &[u8], gates: u8, audio: u64) -> Option<SaidEvent<'_>>
    requires some_gate { 0 < gates }
    requires few_gates { gates ≤ 4 }
    ensures some { IfSome result (λ said. IsEventLine gates audio line.now (said_value said)) }
    ensures hex { IfSome result HasHex }
    ensures none { IfNone result ((e : EventValue) → IsEventLine gates audio line.now e → ⊥) }
{
    let (kind, left) = first_word(line);
    let Some((now, left)) = moment_in(left) else {
        return None;
    };
    if is_word(kind, b"rx") {
        return arrival_of(left, gates, now);
    }
    if is_word(kind, b"app") {
        return app_of(left, now);
    }
    if is_word(kind, b"audio") {
        return audio_of(left, audio, now);
    }
    if !is_end(left) {
        return None;
    }
    if is_word(kind, b"tick") {
        return Some(SaidEvent::Tick { now });
    }
    if is_word(kind, b"end") {
        return Some(SaidEvent::End { now });
    }
    None
}

// The gate, the sender and the bytes of a datagram, at the end of the line.
fn arrival_of(left: &[u8], gates: u8, now: i64) -> Option<SaidEvent<'_>>
    requires some_gate { 0 < gates }
    requires few_gates { gates ≤ 4 }
    ensures some { IfSome result (λ said. (audio : ℕ)
        → SaysDetails gates audio (codes "rx") now (words_left left.now) (said_value said)) }
    ensures hex { IfSome result HasHex }
    ensures none { IfNone result ((audio : ℕ) (e : EventValue)
        → SaysDetails gates audio (codes "rx") now (words_left left.now) e → ⊥) }
{
    let Some((gate, left)) = number_in(left, u64::from(gates - 1)) else {
        return None;
    };
    let Some((from, left)) = endpoint_in(left) else {
        return None;
    };
    let Some(hex) = hex_left(left) else {
        return None;
    };
    Some(SaidEvent::Rx {
        gate: Gate(gate as u8),
        from,
        hex,
        now,
    })
}

// The commit of an application, at the end of the line.
fn app_of(left: &[u8], now: i64) -> Option<SaidEvent<'_>>
    ensures some { IfSome result (λ said. (gates audio : ℕ)
        → SaysDetails gates audio (codes "app") now (words_left left.now) (said_value said)) }
    ensures hex { IfSome result HasHex }
    ensures none { IfNone result ((gates audio : ℕ) (e : EventValue)
        → SaysDetails gates audio (codes "app") now (words_left left.now) e → ⊥) }
{
    let Some(commit) = commit_of(left) else {
        return None;
    };
    Some(SaidEvent::App { commit, now })
}

// The number of an audio commit, greater than the last, and the commit, at the end of the line.
fn audio_of(left: &[u8], last: u64, now: i64) -> Option<SaidEvent<'_>>
    ensures some { IfSome result (λ said. (gates : ℕ)
        → SaysDetails gates last (codes "audio") now (words_left left.now) (said_value said)) }
    ensures hex { IfSome result HasHex }
    ensures none { IfNone result ((gates : ℕ) (e : EventValue)
        → SaysDetails gates last (codes "audio") now (words_left left.now) e → ⊥) }
{
    let Some((number, left)) = number_in(left, AUDIO_MAX) else {
        return None;
    };
    if number <= last {
        return None;
    }
    let Some(commit) = commit_of(left) else {
        return None;
    };
    Some(SaidEvent::Audio {
        number,
        commit,
        now,
    })
}
