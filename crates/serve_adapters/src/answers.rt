//! What calls of the system say of a client, of standard input and of a writer.

ghost use Rattle.std.specs.Prelude.{◌≡◌};
ghost use Rattle.std.specs.IoError.{error_kind};
ghost use Rattle.serve_adapters.specs.Answers.{ended_at, heard_at, is_for_later, spent_at, waits_at};

use lk_talks::Heard;
use std::io;
use std::io::ErrorKind;

/// What is heard of a client where a read into a buffer with room gave this. One that sends no more left, and so did one that no bytes can
/// be had of any more, for whatever reason: a client is never a fault.
///
/// Waits: no. Memory: none.
pub fn heard_of(read: &io::Result<usize>) -> Heard
    ensures { result ≡ heard_at read.now }
{
    match read {
        Ok(0) => Heard::Left,
        Ok(count) => Heard::Got(*count),
        Err(error) if is_later(error) => Heard::Nothing,
        Err(_) => Heard::Left,
    }
}

/// Whether nothing more is there until the system tells of it, where a read gave this.
///
/// Waits: no. Memory: none.
pub fn is_spent(read: &io::Result<usize>) -> bool
    ensures { result ≡ spent_at read.now }
{
    match read {
        Ok(_) => false,
        Err(error) => error.kind() == ErrorKind::WouldBlock,
    }
}

/// What a write that gave this leaves: an error only where no later one can come to anything.
///
/// Waits: no. Memory: none.
pub fn waits_of(written: io::Result<usize>) -> io::Result<()>
    ensures { result ≡ waits_at written }
{
    match written {
        Ok(_) => Ok(()),
        Err(error) if is_later(&error) => Ok(()),
        Err(error) => Err(error),
    }
}

/// Whether standard input has ended, where a read of it into a buffer with room gave this.
///
/// Waits: no. Memory: none.
pub fn ended_of(read: &io::Result<usize>) -> bool
    ensures { result ≡ ended_at read.now }
{
    match read {
        Ok(count) => *count == 0,
        Err(error) => !is_later(error),
    }
}

// Whether the call is to be made again later.
fn is_later(error: &io::Error) -> bool
    ensures { result ≡ is_for_later (error_kind error.now) }
{
    matches!(error.kind(), ErrorKind::WouldBlock | ErrorKind::Interrupted)
}
