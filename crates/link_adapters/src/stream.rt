//! What the answers of a reader and of a writer say.

ghost use Rattle.std.specs.Prelude.{◌≡◌};
ghost use Rattle.link_adapters.specs.Adapters.{got_at, put_at};

use lk_outside::{Put, Taken};
use std::io;

/// What is taken where a read into a buffer with room gave this: a read of nothing is the end, and only an error is a failure.
///
/// Waits: no. Memory: none.
pub fn got_of(read: io::Result<usize>) -> Taken
    ensures { result ≡ got_at read }
{
    match read {
        Ok(0) => Taken::End,
        Ok(count) => Taken::Got(count),
        Err(_) => Taken::Failed,
    }
}

/// What becomes of some bytes for which a write gave this: one that took nothing failed, as one with an error did.
///
/// Waits: no. Memory: none.
pub fn put_of(written: io::Result<usize>) -> Put
    ensures { result ≡ put_at written }
{
    match written {
        Ok(0) => Put::Failed,
        Ok(count) => Put::Took(count),
        Err(_) => Put::Failed,
    }
}
