//! When frames begin.

ghost use Rattle.std.specs.Prelude.{◌≡◌};
ghost use Rattle.lk_base.specs.Ranges.{IsMoment};
ghost use Rattle.step_sequencer.specs.Frames as spec;

/// The host time at which a frame begins, by the one at which frame 0 does: in whole microseconds, rounded down. There are 48,000 frames a
/// second.
///
/// Waits: never. Memory: none.
#[tactic(auto, unfolding(crate::specs::Frames::frame_time))]
pub fn frame_time(origin: i64, frame: u32) -> i64
    requires { IsMoment origin }
    ensures { result ≡ spec.frame_time origin frame }
{
    origin + (frame as i64 * 125 / 6)
}
