//! The list of failing calls that an object in memory is made with: pairs of a kind of call and the
//! number of one call of that kind, from 1. The kinds of a trait are its calls in order, from 0.

ghost use Rattle.std.specs.Prelude.{◌↔◌, IsTrue};
ghost use Rattle.lk_outside.specs.Failing.{FailsAt};

/// The kind of a source's reads.
pub const READ: u8 = 0;

/// The kind of a sink's writes.
pub const WRITE: u8 = 0;

/// The kind of a port's binds.
pub const BIND: u8 = 0;

/// The kind of a port's receives.
pub const RECEIVE: u8 = 1;

/// The kind of a port's sends.
pub const SEND: u8 = 2;

/// The kind of the calls that ask an audio device for its next block.
pub const NEXT: u8 = 0;

/// The kind of an audio device's plays.
pub const PLAY: u8 = 1;

/// The kind of a talk's calls to listen.
pub const LISTEN: u8 = 0;

/// The kind of a talk's reads.
pub const HEAR: u8 = 1;

/// The kind of a talk's writes.
pub const SAY: u8 = 2;

// Whether the list has the call of this number among those of its kind.
pub(crate) fn fails_at(failing: &[(u8, u64)], kind: u8, call: u64) -> bool
    ensures { IsTrue result ↔ FailsAt failing.now kind call }
{
    failing.contains(&(kind, call))
}
