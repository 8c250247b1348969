//! Reading a whole text from a source, and writing one to a sink.

ghost use Rattle.std.specs.Prelude.{◌≡◌, ◌≤◌, ◌+◌, [], length, IfOk, IsErrOf, IsTrue};
ghost use Rattle.std.specs.Bool.{OnTrue, OnFalse};
ghost use Rattle.lk_outside.specs.Faults.{Rose};
ghost use Rattle.lk_outside.specs.Sink.{Appends};
ghost use Rattle.lk_outside.specs.Transfer.{ReadsWhole, TakesOver, TakesWithin, AppendsPrefix};

use crate::{Put, Sink, Source, Taken};
use std::alloc::{AllocError, Global};

// The most bytes that a read is asked for.
const PIECE: usize = 65_536;

/// Why a whole text was not read.
#[derive(Clone, Copy, Debug, PartialEq, Eq)]
pub enum InputFault {
    /// The source failed.
    Failed,
    /// The text has more bytes than the limit.
    TooLong,
    /// There was no memory for the text.
    Memory(AllocError),
}

/// Reads a source to its end.
///
/// `Ok` has all bytes taken, in order, once the source has answered that nothing is left. `Failed` is
/// the source's failure, before which at most `limit` bytes were taken. `TooLong` is that more than
/// `limit` bytes were taken. `Memory` is want of memory, and no failure of the source. At most `limit`
/// and 65,536 bytes are taken, whatever the answer is.
///
/// Waits: in the source's reads alone. Memory: 65,536 bytes, before the first read, and the text.
pub fn read_all<S: Source>(
    alloc: Global,
    source: &mut S,
    limit: usize,
) -> Result<Vec<u8>, InputFault>
    ensures whole { IfOk result
        (λ bytes. ReadsWhole (S.seen source.old).told bytes.items (S.seen source.new).told) }
    ensures within { IfOk result (λ bytes. length bytes.items ≤ limit) }
    ensures too_long { IsErrOf result InputFault.TooLong
        → TakesOver limit (S.seen source.old).told (S.seen source.new).told }
    ensures failed { IsErrOf result InputFault.Failed
        → TakesWithin limit (S.seen source.old).told (S.seen source.new).told }

    // Whatever the answer is.
    ensures bounded { TakesWithin (limit + 65_536) (S.seen source.old).told (S.seen source.new).told }

    // The count rises with the answer `Failed`, and stays with any other.
    ensures cause { IsErrOf result InputFault.Failed
        → Rose (S.seen source.old).faults (S.seen source.new).faults }
    ensures quiet { ¬ (IsErrOf result InputFault.Failed)
        → (S.seen source.new).faults ≡ (S.seen source.old).faults }
{
    let mut piece = zeros(alloc, PIECE).map_err(InputFault::Memory)?;
    let mut bytes = Vec::new(alloc);
    while bytes.len() <= limit {
        match source.read(&mut piece) {
            Taken::Got(count) => {
                bytes
                    .extend_from_slice(&piece[..count])
                    .map_err(InputFault::Memory)?;
            }
            Taken::End => return Ok(bytes),
            Taken::Failed => return Err(InputFault::Failed),
        }
    }
    Err(InputFault::TooLong)
}

// So many bytes, each of them 0.
fn zeros(alloc: Global, count: usize) -> Result<Vec<u8>, AllocError>
    ensures { IfOk result (λ bytes. length bytes.items ≡ count) }
{
    vec![in alloc; 0u8; count]
}

/// Writes all of `bytes` to a sink.
///
/// True where all of them were appended. False is the sink's failure, before which a prefix was
/// appended. With empty bytes the sink isn't called, and the answer is true.
///
/// Waits: in the sink's writes alone. Memory: none.
pub fn write_whole<K: Sink>(sink: &mut K, bytes: &[u8]) -> bool
    ensures whole { OnTrue result (Appends (K.seen sink.old).told bytes.now (K.seen sink.new).told) }
    ensures part { OnFalse result
        (AppendsPrefix (K.seen sink.old).told bytes.now (K.seen sink.new).told) }
    ensures quiet { OnTrue result ((K.seen sink.new).faults ≡ (K.seen sink.old).faults) }
    ensures cause { OnFalse result (Rose (K.seen sink.old).faults (K.seen sink.new).faults) }
    ensures empty { bytes.now ≡ [] → IsTrue result × (sink.new ≡ sink.old) }
{
    let mut done = 0;
    while done < bytes.len() {
        match sink.write(&bytes[done..]) {
            Put::Took(count) => done += count,
            Put::Failed => return false,
        }
    }
    true
}
