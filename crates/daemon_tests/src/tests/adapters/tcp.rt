//! A talk with a client over the loopback interface.

use link_adapters::{TcpTalk, address_of};
use lk_base::Endpoint;
use lk_outside::{Bound, Put, Taken, Talk};
use std::io;
use std::io::{Read, Write};
use std::net::{Net, OpenListener, TcpListener, TcpStream};
use std::sync::Wait;
use std::test::Fail;

#[test]
fn a_client_is_heard_and_answered_until_it_leaves(rt: HostRuntime) -> Result<(), Fail> {
    let at = free_endpoint(&rt)?;
    assert!(rt; serves(rt, at)?);
    Ok(())
}

// An endpoint of this host that nobody listens at: at 127.5.0.1, where no other test has the system pick ports.
fn free_endpoint<R: Net>(rt: &R) -> io::Result<Endpoint> {
    let any = Endpoint {
        addr: 0x7f05_0001,
        port: 0,
    };
    let listener = TcpListener::bind(rt, address_of(any))?;
    Ok(Endpoint {
        port: listener.local_addr()?.port(),
        ..any
    })
}

// Whether a talk that listens at an endpoint, where no other can then, goes on with the first client to its end.
fn serves<R: Net + Wait + Eprint + Copy + Drop>(rt: R, at: Endpoint) -> io::Result<bool> {
    let mut talk = TcpTalk::new(rt);
    if talk.listen(at) == Bound::Failed || TcpTalk::new(rt).listen(at) == Bound::Ready {
        return Ok(false);
    }
    let mut client = TcpStream::connect(&rt, address_of(at))?;
    client.write_all(b"status\n")?;
    let mut piece = [0u8; 16];
    let heard = talk.read(&mut piece) == Taken::Got(7) && piece.starts_with(b"status\n");
    // Behind the first client no other is let in.
    let alone = TcpStream::connect(&rt, address_of(at)).is_err();
    let said = talk.write(b"bad\n") == Put::Took(4) && hears(&mut client, b"bad\n")?;
    drop(client);
    Ok(heard && alone && said && talk.read(&mut piece) == Taken::End)
}

// Whether just these bytes come next.
fn hears<S: Read>(client: &mut S, wanted: &[u8]) -> io::Result<bool> {
    let mut piece = [0u8; 16];
    let count = client.read(&mut piece)?;
    Ok(piece.get(..count) == Some(wanted))
}
