//! A sink over a writer, as standard output.

ghost use Rattle.std.specs.Prelude.{◌≡◌, ◌<◌, length, None, Some};
ghost use Rattle.lk_outside.specs.Faults.{Rose};
ghost use Rattle.lk_outside.specs.Sink.{Accepts, HasWriteCause};
ghost use Rattle.link_adapters.specs.Adapters.{IsWrittenTo, KeepsWriteError};

use crate::stream::put_of;
use lk_outside::{Put, Sink};
use std::io;
use std::io::{ErrorKind, Write};

/// A writer as a sink, with a count of the writes that failed or took nothing, and why the last of them did.
#[derive(Drop)]
pub struct StdSink<W: Write + Drop> {
    inner: W,
    faults: u64,
    last: Option<io::Error>,
}

impl<W: Write + Drop> StdSink<W> {
    /// A sink that no write of has failed yet.
    pub fn new(inner: W) -> Self
        ensures inner { result.inner ≡ inner }
        ensures faultless { result.faults ≡ 0 }
        ensures last { result.last ≡ None }
    {
        StdSink {
            inner,
            faults: 0,
            last: None,
        }
    }

    /// Why the last write failed that did; one that took nothing is told as `WriteZero`.
    pub fn last_error(&self) -> Option<io::Error>
        ensures { result ≡ self.now.last }
    {
        self.last
    }

    // Counts a write that failed so.
    fn fail(&mut self, error: io::Error)
        ensures rose { Rose self.old.faults self.new.faults }
        ensures last { self.new.last ≡ Some error }
        ensures inner { self.new.inner ≡ self.old.inner }
    {
        self.faults = self.faults.saturating_add(1);
        self.last = Some(error);
    }
}

impl<W: Write + Drop> Sink for StdSink<W> {
    ghost seen = { λ sink. record { told = None; faults = sink.faults } };

    fn write(&mut self, bytes: &[u8]) -> Put
        requires { 0 < length bytes.now }
        ensures bytes { Accepts None None bytes.now result }
        ensures cause { HasWriteCause self.old.faults self.new.faults result }

        // Of the writer itself, where its bytes are known.
        ensures inner { IsWrittenTo (W.contents self.old.inner) (W.contents self.new.inner) bytes.now result }

        // The error of a write that failed is kept.
        ensures last { KeepsWriteError self.old.last self.new.last result }
    {
        let written = self.inner.write(bytes);
        let put = put_of(written);
        match written {
            Ok(0) => self.fail(io::Error::from(ErrorKind::WriteZero)),
            Ok(_) => {}
            Err(error) => self.fail(error),
        }
        put
    }
}
