//! The blocks that a device in memory gives.

ghost use Rattle.std.specs.Prelude.{All, IfOk};
ghost use Rattle.lk_outside.specs.Audio.{IsBlock};

use lk_base::Block;
use std::alloc::{AllocError, Global};

pub fn blocks_of(alloc: Global, count: u16) -> Result<Vec<Block>, AllocError>
    ensures { IfOk result (λ blocks. All IsBlock blocks.items) }
{
    let mut blocks = Vec::new(alloc);
    for k in 0..count {
        blocks.push(block_after(k))?;
    }
    Ok(blocks)
}

/// The block that so many blocks of the device come before.
pub fn block_after(k: u16) -> Block
    ensures { IsBlock result }
{
    Block {
        start: 20_000 * i64::from(k),
        length: 20_000,
    }
}
