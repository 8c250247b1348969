//! Audio devices in memory.

ghost use Rattle.std.specs.Prelude.{All, IfOk};
ghost use Rattle.lk_outside.specs.Audio.{IsBlock};

use lk_base::Block;
use lk_outside::ListAudio;
use std::alloc::{AllocError, Global};
use std::process::Abort;

/// When the blocks of a device begin.
#[derive(Clone, Copy)]
pub enum Blocks {
    /// A second long each, from a second on.
    Long,
    /// 20,000 microseconds long each, from 0 on.
    Short,
}

/// A device of so many blocks, whose call of this kind and number fails, from 1. One of number 0 is never made.
pub fn device_of(
    rt: &impl Abort,
    alloc: Global,
    blocks: Blocks,
    count: u16,
    failing: (u8, u64),
) -> ListAudio {
    let failing = vec![in alloc; failing].expect(rt, "memory for a call");
    let blocks = blocks_of(alloc, blocks, count).expect(rt, "memory for blocks");
    ListAudio::new(alloc, blocks, failing).expect(rt, "memory for a device")
}

fn blocks_of(alloc: Global, blocks: Blocks, count: u16) -> Result<Vec<Block>, AllocError>
    ensures { IfOk result (λ all. All IsBlock all.items) }
{
    let mut all = Vec::new(alloc);
    for k in 0..count {
        all.push(block_after(blocks, k))?;
    }
    Ok(all)
}

// The block that so many blocks of the device come before.
fn block_after(blocks: Blocks, k: u16) -> Block
    ensures { IsBlock result }
{
    match blocks {
        Blocks::Long => Block {
            start: 1_000_000 + 1_000_000 * i64::from(k),
            length: 1_000_000,
        },
        Blocks::Short => Block {
            start: 20_000 * i64::from(k),
            length: 20_000,
        },
    }
}
