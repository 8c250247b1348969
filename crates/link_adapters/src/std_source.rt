//! A source over a reader, as standard input.

ghost use Rattle.std.specs.Prelude.{◌≡◌, ◌<◌, length, None};
ghost use Rattle.lk_outside.specs.Source.{Gives, KeepsRest, HasReadCause};
ghost use Rattle.link_adapters.specs.Adapters.{IsReadFrom, KeepsReadError};

use crate::stream::got_of;
use lk_outside::{Source, Taken};
use std::io;
use std::io::Read;

/// A reader as a source, with a count of the reads that failed, and why the last of them did.
#[derive(Drop)]
pub struct StdSource<R: Read + Drop> {
    inner: R,
    faults: u64,
    last: Option<io::Error>,
}

impl<R: Read + Drop> StdSource<R> {
    /// A source that no read of has failed yet.
    pub fn new(inner: R) -> Self
        ensures inner { result.inner ≡ inner }
        ensures faultless { result.faults ≡ 0 }
        ensures last { result.last ≡ None }
    {
        StdSource {
            inner,
            faults: 0,
            last: None,
        }
    }

    /// Why the last read failed that did.
    pub fn last_error(&self) -> Option<io::Error>
        ensures { result ≡ self.now.last }
    {
        self.last
    }
}

impl<R: Read + Drop> Source for StdSource<R> {
    ghost seen = { λ source. record { told = None; faults = source.faults } };

    fn read(&mut self, buf: &mut [u8]) -> Taken
        requires { 0 < length buf.old }
        ensures bytes { Gives None None buf.new result }
        ensures rest { KeepsRest None buf.old buf.new result }
        ensures cause { HasReadCause self.old.faults self.new.faults result }

        // Of the reader itself, where its bytes are known.
        ensures inner { IsReadFrom (R.remaining self.old.inner) (R.remaining self.new.inner) buf.new result }

        // The error of a read that failed is kept.
        ensures last { KeepsReadError self.old.last self.new.last result }
    {
        let read = self.inner.read(buf);
        let taken = got_of(read);
        if let Err(error) = read {
            self.faults = self.faults.saturating_add(1);
            self.last = Some(error);
        }
        taken
    }
}
