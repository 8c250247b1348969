//! Timelines brought into the ranges of their numbers.

ghost use Rattle.std.specs.Prelude.{◌≡◌};
ghost use Rattle.lk_base.specs.Timeline.{IsTidy};
ghost use Rattle.timeline_math.specs.Tidying.{tidy_of};

use lk_base::{Timeline, clip};

// 999 and 20 beats per minute.
const FASTEST: i64 = 60_060;

const SLOWEST: i64 = 3_000_000;

/// The tidy timeline nearest to `tl`: its tempo is clamped to 60,060..=3,000,000 microseconds per beat,
/// and both of its origins are clipped to the limit.
pub fn tidy(tl: &Timeline) -> Timeline
    ensures value { result ≡ tidy_of tl.now }
    ensures tidy { IsTidy result }
    ensures same { IsTidy tl.now → result ≡ tl.now }
{
    Timeline {
        mpb: tl.mpb.clamp(FASTEST, SLOWEST),
        beat: clip(tl.beat as i128),
        time: clip(tl.time as i128),
    }
}
