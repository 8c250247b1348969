//! A client's seat.

ghost use Rattle.std.specs.Prelude.{◌≡◌, ◌++◌, ◌∷◌, [], ℕ, List, None, IfSome, pos, take, true, false};
ghost use Rattle.link_asks.specs.Asks.{IsAsk, IsAsked};
ghost use Rattle.link_asks.specs.Reasons.{IsReason};

use arrayvec::ArrayVec;
use link_asks::{Ask, Reason, View, ask_laws, ask_of, reason_of};

/// The first 130 bytes of a line: none that is longer than 128 asks for anything.
pub(crate) type LineHead = ArrayVec<u8, 130>;

/// What is kept of a client.
#[derive(Debug, Drop)]
pub(crate) struct Seat {
    // Whether a client is there.
    pub(crate) here: bool,
    pub(crate) watching: bool,
    // The line that it is sending.
    pub(crate) line: LineHead,
    // What it was told last of what is shown, and when, in microseconds.
    pub(crate) told: Option<View>,
    pub(crate) told_at: i64,
    // When something was heard of it last, in microseconds.
    pub(crate) heard_at: i64,
    // How many commits its last piece made.
    pub(crate) eager: u32,
}

impl Seat {
    /// A seat that is free.
    pub(crate) fn free() -> Seat
        ensures flags { (result.here ≡ false) × (result.watching ≡ false) }
        ensures line { result.line.items ≡ [] }
        ensures told { (result.told ≡ None) × (result.told_at ≡ pos 0) × (result.heard_at ≡ pos 0) }
    {
        Seat {
            here: false,
            watching: false,
            line: LineHead::new(),
            told: None,
            told_at: 0,
            heard_at: 0,
            eager: 0,
        }
    }

    /// The seat of a client that came at a moment.
    pub(crate) fn taken(at: i64) -> Seat
        ensures flags { (result.here ≡ true) × (result.watching ≡ false) }
        ensures line { result.line.items ≡ [] }
        ensures told { (result.told ≡ None) × (result.told_at ≡ pos 0) × (result.heard_at ≡ at) }
    {
        let mut seat = Seat::free();
        seat.here = true;
        seat.heard_at = at;
        seat
    }
}

/// Keeps a further byte of a line, if it is among the first. Memory: none.
pub(crate) fn keep(line: &mut LineHead, byte: u8)
    ensures { (whole : List ℕ) → line.old.items ≡ take 130 whole → line.new.items ≡ take 130 (whole ++ byte ∷ []) }
{
    if line.is_full() {
        return;
    }
    line.push(byte);
}

/// What the line asks for whose first 130 bytes were kept, and what is wrong with it where it asks for nothing. Memory: none.
pub(crate) fn asked_in(line: &[u8]) -> (Option<Ask>, Reason)
    ensures asked { (whole : List ℕ) → line.now ≡ take 130 whole → IsAsked whole result.0 }
    ensures range { IfSome result.0 IsAsk }
    ensures reason { (whole : List ℕ) → line.now ≡ take 130 whole → result.0 ≡ None → IsReason whole result.1 }
{
    // Laws, for the proof.
    ask_laws();
    (ask_of(line), reason_of(line))
}
