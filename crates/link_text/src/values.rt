//! What the next word of a line says: a number, a truth value, an endpoint, or an id.

ghost use Rattle.std.specs.Prelude.{◌≤◌};
ghost use Rattle.std.specs.Fmt.{decimal, signed_decimal};
ghost use Rattle.lk_base.specs.Endpoint.{IsEndpoint};
ghost use Rattle.lk_base.specs.Ranges.{IsMoment, IsQuantum, IsWithinLimit};
ghost use Rattle.link_lines.specs.LineWords.{ReadsWord, words_left};
ghost use Rattle.link_script.specs.LiveScript.{IsTempo};
ghost use Rattle.link_script.specs.ReplayScript.{IsVisibleId};
ghost use Rattle.link_lines.specs.Words.{endpoint_text_of, truth_text_of};

use crate::node_id::id_of;
use client_state::QUANTUM_MAX;
use link_lines::{amount_of, endpoint_of, next_word, number_of, signed_of, truth_of};
use lk_base::{Endpoint, MOMENT_MAX, NodeId};

/// A number up to `limit`, and what is left behind it.
pub(crate) fn number_in(left: &[u8], limit: u64) -> Option<(u64, &[u8])>
    ensures { ReadsWord (λ n. n ≤ limit) decimal left.now result }
{
    let (word, left) = next_word(left)?;
    Some((number_of(word, limit)?, left))
}

/// A moment, and what is left behind it.
pub(crate) fn moment_in(left: &[u8]) -> Option<(i64, &[u8])>
    ensures { ReadsWord IsMoment signed_decimal left.now result }
{
    let (word, left) = next_word(left)?;
    Some((amount_of(word, 0, MOMENT_MAX as u64)?, left))
}

/// A tempo, from 60,060 to 3,000,000 microseconds per beat, and what is left behind it.
pub(crate) fn tempo_in(left: &[u8]) -> Option<(i64, &[u8])>
    ensures { ReadsWord IsTempo signed_decimal left.now result }
{
    let (word, left) = next_word(left)?;
    Some((amount_of(word, 60_060, 3_000_000)?, left))
}

/// The length of a quantum, from 0 to 2^40 microbeats, and what is left behind it.
pub(crate) fn quantum_in(left: &[u8]) -> Option<(i64, &[u8])>
    ensures { ReadsWord IsQuantum signed_decimal left.now result }
{
    let (word, left) = next_word(left)?;
    Some((amount_of(word, 0, QUANTUM_MAX as u64)?, left))
}

/// A number within 2^60 of 0, and what is left behind it.
pub(crate) fn signed_in(left: &[u8]) -> Option<(i64, &[u8])>
    ensures { ReadsWord IsWithinLimit signed_decimal left.now result }
{
    let (word, left) = next_word(left)?;
    Some((signed_of(word)?, left))
}

/// A truth value, and what is left behind it.
pub(crate) fn truth_in(left: &[u8]) -> Option<(bool, &[u8])>
    ensures { ReadsWord (λ truth. Unit {0}) truth_text_of left.now result }
{
    let (word, left) = next_word(left)?;
    Some((truth_of(word)?, left))
}

/// An endpoint, and what is left behind it.
pub(crate) fn endpoint_in(left: &[u8]) -> Option<(Endpoint, &[u8])>
    ensures { ReadsWord IsEndpoint endpoint_text_of left.now result }
{
    let (word, left) = next_word(left)?;
    Some((endpoint_of(word)?, left))
}

/// An id, and what is left behind it.
pub(crate) fn id_in(left: &[u8]) -> Option<(NodeId, &[u8])>
    ensures { ReadsWord IsVisibleId (λ id. id.0) left.now result }
{
    let (word, left) = next_word(left)?;
    Some((id_of(word)?, left))
}
