//! A rest, for a loop that would go round at once with nothing to do.

use std::sync::Wait;
use std::thread::Parker;
use std::time::Duration;

/// How long a rest is at most, in microseconds.
const REST: u64 = 1_000;

/// How long the loop of the network has for what it owes, before it is asked to end, in microseconds: a broadcast is due at most 50,000
/// after the one before.
const LAST_REST: u64 = 60_000;

/// Rests. Waits: a millisecond at most. Memory: none.
pub(crate) fn rest<R: Wait>(rt: &R) {
    Parker::new().park_timeout(rt, Duration::from_micros(REST));
}

/// Rests until the last edit has gone out to the peers. Waits: 60 milliseconds at most. Memory: none.
pub(crate) fn rest_at_the_end<R: Wait>(rt: &R) {
    Parker::new().park_timeout(rt, Duration::from_micros(LAST_REST));
}
