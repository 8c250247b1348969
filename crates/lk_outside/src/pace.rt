//! What a run waits by.

ghost use Rattle.std.specs.Prelude.{◌≡◌, ℤ, Option};
ghost use Rattle.lk_base.specs.Ranges.{IsMoment};
ghost use Rattle.lk_outside.specs.Pace.{IsPaced};

/// Waits until a moment comes. It has no faults.
pub trait Pace {
    /// How late it answers, in microseconds, where it tells that. No call changes it.
    ghost late: { Self → Option ℤ };

    /// Waits until a moment, and answers the one that it is then, both in microseconds of host time.
    fn until(&mut self, moment: i64) -> i64
        requires { IsMoment moment }
        ensures answer { IsPaced (late self.old) moment result }
        ensures late { late self.new ≡ late self.old };
}
