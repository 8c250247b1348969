//! The clicks of a state.

ghost use Rattle.std.specs.Prelude.{◌≡◌, pos, ◌≤◌, ◌+ℤ◌, ◌≤ℤ◌, int_le, filter};
ghost use Rattle.std.specs.Int.{int_max, int_min};
ghost use Rattle.timeline_math.specs.Clicks.{clicks_of};
ghost use Rattle.arrayvec.specs.ArrayVec.{array_vec_len};
ghost use Rattle.lk_base.specs.Ranges.{IsQuantum, IsWithinLimit};
ghost use Rattle.lk_base.specs.Timeline.{IsTidy};

use crate::state::State;
use lk_base::{Block, Clicks, Timeline};
use timeline_math::clicks;

impl State {
    ghost use Rattle.client_state.specs.State.{clicks_in};

    /// The clicks of a block of at most a second, accented by the state's quantum: none where it isn't playing, else those
    /// at or after the start.
    #[tactic(auto, unfolding(crate::specs::State::clicks_in))]
    pub fn clicks(&self, block: Block) -> Clicks
        requires tidy { IsTidy self.now.timeline }
        requires quantum { IsQuantum self.now.quantum }
        requires positive { pos 0 ≤ℤ block.length }
        requires short { block.length ≤ℤ pos 1_000_000 }
        requires start { IsWithinLimit block.start }
        requires end { IsWithinLimit (block.start +ℤ block.length) }
        ensures clicks { result.items ≡ clicks_in self.now block }
        ensures few { array_vec_len result ≤ 17 }
    {
        if self.start.playing {
            clicks_after(&self.timeline, self.start.time, block, self.quantum)
        } else {
            Clicks::new()
        }
    }
}

// The clicks of a block at or after a time.
fn clicks_after(tl: &Timeline, start: i64, block: Block, quantum: i64) -> Clicks
    requires tidy { IsTidy tl.now }
    requires quantum { IsQuantum quantum }
    requires positive { pos 0 ≤ℤ block.length }
    requires short { block.length ≤ℤ pos 1_000_000 }
    requires start { IsWithinLimit block.start }
    requires end { IsWithinLimit (block.start +ℤ block.length) }
    ensures clicks { result.items ≡ filter (λ click. int_le start click.at) (clicks_of tl.now block quantum) }
    ensures few { array_vec_len result ≤ 17 }
{
    clicks(tl, part_from(block, start), quantum)
}

// The part of a block that begins at a time, or at the nearest end of the block.
fn part_from(block: Block, start: i64) -> Block
    requires positive { pos 0 ≤ℤ block.length }
    requires short { block.length ≤ℤ pos 1_000_000 }
    requires start { IsWithinLimit block.start }
    requires end { IsWithinLimit (block.start +ℤ block.length) }
    ensures start { result.start ≡ int_max block.start (int_min start (block.start +ℤ block.length)) }
    ensures end { result.start +ℤ result.length ≡ block.start +ℤ block.length }
    ensures low { block.start ≤ℤ result.start }
    ensures high { result.start ≤ℤ (block.start +ℤ block.length) }
{
    let end = block.start + block.length;
    let from = start.clamp(block.start, end);
    Block {
        start: from,
        length: end - from,
    }
}
