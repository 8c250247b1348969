//! A pace in memory.

ghost use Rattle.lk_base.specs.Ranges.{IsMoment};

use crate::Pace;
use lk_base::MOMENT_MAX;

/// A pace that waits for nothing. It answers each moment so many microseconds late, and tells that.
#[derive(Debug, Drop)]
pub struct ListPace {
    late: i64,
    ghost moment: { IsMoment late },
}

impl ListPace {
    ghost use Rattle.std.specs.Prelude.{◌≡◌, Some};
    ghost use Rattle.lk_outside.specs.ListPace.{late_of};

    /// A pace that answers `late` microseconds late, but at 2^55 at the latest. Waits: no.
    /// Memory: none.
    pub fn new(late: i64) -> Self
        requires { IsMoment late }
        ensures { late_of result ≡ Some late }
    {
        ListPace { late }
    }
}

impl Pace for ListPace {
    ghost use Rattle.std.specs.Prelude.{◌≡◌};
    ghost use Rattle.lk_outside.specs.Pace.{IsPaced};
    ghost use Rattle.lk_outside.specs.ListPace.{late_of};

    ghost late = { late_of };

    fn until(&mut self, moment: i64) -> i64
        requires { IsMoment moment }
        ensures answer { IsPaced (late_of self.old) moment result }
        ensures late { late_of self.new ≡ late_of self.old }
    {
        (moment + self.late).min(MOMENT_MAX)
    }
}
