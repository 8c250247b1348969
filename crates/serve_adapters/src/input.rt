//! Standard input, whose end may end the serving.

use crate::answers::ended_of;
use mio::unix::SourceFd;
use mio::{Interest, Poll, Token};
use std::io::Read;

/// What is known of standard input.
#[derive(Clone, Copy, Debug, PartialEq, Eq)]
pub enum StandardInput {
    /// Nobody asks for its end.
    Unwatched,
    /// Its end is watched for.
    Watched,
    /// It has ended.
    Ended,
}

/// Watches for the end of standard input: the poll hears of it under this token. One that the system can't watch never keeps a reader
/// waiting, as a file or what is closed: it has ended.
///
/// Waits: no. Memory: none.
pub fn watched(poll: &Poll, token: Token) -> StandardInput {
    let descriptor = 0;
    let mut source = SourceFd(&descriptor);
    match poll
        .registry()
        .register(&mut source, token, Interest::READABLE)
    {
        Ok(()) => StandardInput::Watched,
        Err(_) => StandardInput::Ended,
    }
}

/// Reads from standard input, which has something to read or has ended, once, and watches on unless it has ended.
///
/// Waits: no, where it is as the poll has told. Memory: none.
pub fn read_on<R: Input>(rt: &R, poll: &Poll, token: Token) -> StandardInput {
    let mut buffer = [0u8; 512];
    let read = rt.reader().read(&mut buffer);
    if ended_of(&read) {
        return StandardInput::Ended;
    }
    let descriptor = 0;
    let mut source = SourceFd(&descriptor);
    match poll
        .registry()
        .reregister(&mut source, token, Interest::READABLE)
    {
        Ok(()) => StandardInput::Watched,
        Err(_) => StandardInput::Ended,
    }
}
