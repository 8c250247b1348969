//! Counts by which the objects of a run wait for one another.

use std::sync::atomic::{AtomicU64, Ordering};
use std::thread::yield_now;

/// Waits until a count has come to a number, and answers whether it has. It looks at most so many times, and lets other threads run at
/// every 1,024th look.
pub fn has_come(count: &AtomicU64, number: u64, looks: u64) -> bool {
    for look in 0..looks {
        if count.load(Ordering::SeqCst) >= number {
            return true;
        }
        if look % 1_024 == 0 {
            yield_now();
        }
    }
    false
}

/// Raises a count by one.
pub fn raise(count: &AtomicU64) {
    let _before = count.fetch_add(1, Ordering::SeqCst);
}
