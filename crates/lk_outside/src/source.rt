//! Where bytes come from.

ghost use Rattle.std.specs.Prelude.{◌<◌, length};
ghost use Rattle.lk_outside.specs.Source.{Gives, KeepsRest, HasReadCause};
ghost use Rattle.lk_outside.specs.Stream.{Stream};

/// What a read answers.
#[derive(Clone, Copy, Debug, PartialEq, Eq)]
pub enum Taken {
    /// So many bytes were taken from the source, at least one; they stand at the front of the buffer.
    Got(usize),
    /// Nothing is left.
    End,
    /// The source failed, and counted it. Nothing was taken.
    Failed,
}

/// Bytes that are taken from the front, in order.
pub trait Source {
    /// The bytes left, where the source tells them, and how often a read has failed. That count never falls, and stays at its type's
    /// last value.
    ghost seen: { Self → Stream };

    /// Takes some bytes into the front of `buf`. A source that doesn't tell its bytes, as a reader of the system, may write
    /// anything behind them.
    fn read(&mut self, buf: &mut [u8]) -> Taken
        requires { 0 < length buf.old }
        ensures bytes { Gives (seen self.old).told (seen self.new).told buf.new result }
        ensures rest { KeepsRest (seen self.old).told buf.old buf.new result }
        ensures cause { HasReadCause (seen self.old).faults (seen self.new).faults result };
}
