//! Cases worked out apart from the code, by exact fractions, by hand or by a reference, and exchanges over a made-up network.

mod base;
mod machine;
mod wire;

use std::fmt::Debug;
use std::process::Abort;

// Fails, telling the case and both, where the two are not the same.
fn expect<C: Debug, T: PartialEq + Debug>(rt: &impl Abort, case: &C, found: &T, wanted: &T) {
    assert_eq!(rt; *found, *wanted, "{case:?}");
}
