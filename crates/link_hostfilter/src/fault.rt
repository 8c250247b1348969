//! Why a pair is refused.

/// Why a filter refuses a pair.
#[derive(Clone, Copy, Debug, PartialEq, Eq)]
pub enum FilterFault {
    /// Its sample isn't greater than the newest one taken, which is `last`.
    NotLater { last: i64 },
    /// It is more than 2^31 from a pair that would stay, in its sample or its host time; this is the oldest such pair.
    TooFar { sample: i64, host: i64 },
}
