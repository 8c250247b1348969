//! What the answers of a socket say: its errors end nothing, but for those that say that it is gone.

ghost use Rattle.std.specs.Prelude.{◌≡◌};
ghost use Rattle.std.specs.IoError.{raw_os_error};
ghost use Rattle.link_adapters.specs.Sockets.{is_among, codes_of_gone, codes_of_before, posted_at, waited_at, IsTakenAt};

use super::address::endpoint_of;
use lk_base::Endpoint;
use lk_outside::Posted;
use std::io;
use std::net::SocketAddr;

/// What one receive gives.
#[derive(Clone, Copy)]
pub enum Taken {
    /// A datagram, and how many of its bytes stand at the front of the buffer.
    Datagram(Endpoint, usize),
    /// Nothing, yet more may be there: it is asked again at once.
    Passed,
    /// Nothing is there, or nothing that can be had now: it is asked again behind the next wait.
    Nothing,
}

/// What becomes of a datagram for which a send gave this: it failed where the socket is gone, and any other error of the system drops this
/// datagram alone.
///
/// Waits: no. Memory: none.
pub fn posted_of(sent: &io::Result<usize>) -> Posted
    ensures { result ≡ posted_at sent.now }
{
    match sent {
        Ok(_) => Posted::Sent,
        Err(error) if is_of_gone(error) => Posted::Failed,
        Err(_) => Posted::Dropped,
    }
}

/// What is taken where a receive gave this: what comes from no IPv4 address is passed over, and so is an error of something before. The
/// error is one of a socket that is gone; at any other nothing is there until the next wait has ended.
///
/// Waits: no. Memory: none.
pub fn taken_of(received: io::Result<(usize, SocketAddr)>) -> io::Result<Taken>
    ensures { IsTakenAt received result }
{
    match received {
        Ok((count, from)) => Ok(match endpoint_of(from) {
            Some(from) => Taken::Datagram(from, count),
            None => Taken::Passed,
        }),
        Err(error) if is_of_gone(&error) => Err(error),
        Err(error) if is_of_before(&error) => Ok(Taken::Passed),
        Err(_) => Ok(Taken::Nothing),
    }
}

/// What comes of a wait that gave this: the error is one of a descriptor that is gone, and at any other the wait just ended early.
///
/// Waits: no. Memory: none.
pub fn waited_of(waited: io::Result<()>) -> io::Result<()>
    ensures { result ≡ waited_at waited }
{
    match waited {
        Err(error) if is_of_gone(&error) => Err(error),
        _ => Ok(()),
    }
}

// Whether an error says that the socket is gone, or that it is none: no later call of it can come to anything.
fn is_of_gone(error: &io::Error) -> bool
    ensures { result ≡ is_among codes_of_gone (raw_os_error error.now) }
{
    match error.raw_os_error() {
        Some(
            9 // EBADF
            | 88, // ENOTSOCK
        ) => true,
        _ => false,
    }
}

// Whether the error of a receive says nothing of what comes: that a signal interrupted it, or what became of a datagram sent before.
fn is_of_before(error: &io::Error) -> bool
    ensures { result ≡ is_among codes_of_before (raw_os_error error.now) }
{
    match error.raw_os_error() {
        Some(
            4 // EINTR
            | 101 // ENETUNREACH
            | 104 // ECONNRESET
            | 111 // ECONNREFUSED
            | 113, // EHOSTUNREACH
        ) => true,
        _ => false,
    }
}
