//! Where bytes go.

ghost use Rattle.std.specs.Prelude.{◌<◌, length};
ghost use Rattle.lk_outside.specs.Sink.{Accepts, HasWriteCause};
ghost use Rattle.lk_outside.specs.Stream.{Stream};

/// What a write answers.
#[derive(Clone, Copy, Debug, PartialEq, Eq)]
pub enum Put {
    /// So many bytes from the front were appended, at least one.
    Took(usize),
    /// The sink failed, and counted it. Nothing was appended.
    Failed,
}

/// Bytes that are appended at the end, in order.
pub trait Sink {
    /// The bytes written so far, where the sink tells them, and how often a write has failed. That count never falls, and stays at its
    /// type's last value.
    ghost seen: { Self → Stream };

    /// Appends some bytes from the front of `bytes`.
    fn write(&mut self, bytes: &[u8]) -> Put
        requires { 0 < length bytes.now }
        ensures bytes { Accepts (seen self.old).told (seen self.new).told bytes.now result }
        ensures cause { HasWriteCause (seen self.old).faults (seen self.new).faults result };
}
