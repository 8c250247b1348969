//! A source over a reader and a sink over a writer.

use link_adapters::{StdSink, StdSource};
use lk_outside::{Put, Sink, Source, Taken};
use std::io;
use std::io::{ErrorKind, Read, Write};
use std::test::Fail;

/// A reader and a writer that fails at each call.
#[derive(Drop)]
struct Broken;

impl Read for Broken {
    fn read(&mut self, _buf: &mut [u8]) -> io::Result<usize> {
        Err(io::Error::from(ErrorKind::TimedOut))
    }
}

impl Write for Broken {
    fn write(&mut self, _buf: &[u8]) -> io::Result<usize> {
        Err(io::Error::from(ErrorKind::TimedOut))
    }

    fn flush(&mut self) -> io::Result<()> {
        Ok(())
    }
}

/// A writer that takes nothing.
#[derive(Drop)]
struct Full;

impl Write for Full {
    fn write(&mut self, _buf: &[u8]) -> io::Result<usize> {
        Ok(0)
    }

    fn flush(&mut self) -> io::Result<()> {
        Ok(())
    }
}

/// What each read of two bytes gives, and the bytes that it leaves in the piece.
const READS: &[(Taken, [u8; 2])] = &[
    (Taken::Got(2), [97, 98]),
    (Taken::Got(1), [99, 98]),
    (Taken::End, [99, 98]),
];

#[test]
fn a_reader_is_a_source_up_to_its_end(rt: HostRuntime) -> Result<(), Fail> {
    assert!(rt; gives(&mut StdSource::new(b"abc".as_slice()), READS));
    assert!(rt; gives(&mut StdSource::new(Broken), &[(Taken::Failed, [0, 0])]));
    Ok(())
}

#[test]
fn a_failure_of_a_stream_is_kept(rt: HostRuntime) -> Result<(), Fail> {
    let mut source = StdSource::new(Broken);
    assert!(rt; kind_of(source.last_error()).is_none());
    let _failed = gives(&mut source, READS);
    assert!(rt; kind_of(source.last_error()) == Some(ErrorKind::TimedOut));
    let mut sink = StdSink::new(Broken);
    let _unwritten = sink.write(b"abc");
    assert!(rt; kind_of(sink.last_error()) == Some(ErrorKind::TimedOut));
    let mut full = StdSink::new(Full);
    let _none = full.write(b"abc");
    assert!(rt; kind_of(full.last_error()) == Some(ErrorKind::WriteZero));
    Ok(())
}

fn kind_of(error: Option<io::Error>) -> Option<ErrorKind> {
    error.map(|error| error.kind())
}

fn gives<S: Source>(source: &mut S, wanted: &[(Taken, [u8; 2])]) -> bool {
    let mut piece = [0u8; 2];
    for (taken, bytes) in wanted {
        if source.read(&mut piece) != *taken || piece != *bytes {
            return false;
        }
    }
    true
}

#[test]
fn a_writer_is_a_sink_where_it_takes_something(rt: HostRuntime) -> Result<(), Fail> {
    assert!(rt; StdSink::new(Vec::<u8>::new(rt.alloc())).write(b"abc") == Put::Took(3));
    assert!(rt; StdSink::new(Broken).write(b"abc") == Put::Failed);
    assert!(rt; StdSink::new(Full).write(b"abc") == Put::Failed);
    Ok(())
}
