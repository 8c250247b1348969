//! How far a journal was at a moment.

ghost use Rattle.lk_base.specs.Ranges.{IsMoment};

/// How many events a journal had taken at a moment, in microseconds.
#[derive(Clone, Copy, Debug, PartialEq, Eq)]
pub struct Mark {
    pub at: i64,
    pub events: u64,
    ghost moment: { IsMoment at },
}
