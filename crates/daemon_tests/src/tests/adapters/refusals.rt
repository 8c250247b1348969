//! What a port makes of the numbers of errors, and of addresses.

use link_adapters::{Taken, address_of, endpoint_of, posted_of, taken_of, waited_of};
use lk_base::Endpoint;
use lk_outside::Posted;
use std::alloc::{AllocError, Global};
use std::io;
use std::io::ErrorKind;
use std::net::{Ipv4Addr, Ipv6Addr, SocketAddr};
use std::test::Fail;

/// What the numbers of Linux mean by which it is told what a receive passes over, and of others that are tried below.
const KINDS: &[(i32, ErrorKind)] = &[
    (1, ErrorKind::PermissionDenied),
    (4, ErrorKind::Interrupted),
    (11, ErrorKind::WouldBlock),
    (12, ErrorKind::OutOfMemory),
    (13, ErrorKind::PermissionDenied),
    (22, ErrorKind::InvalidInput),
    (99, ErrorKind::AddrNotAvailable),
    (100, ErrorKind::NetworkDown),
    (101, ErrorKind::NetworkUnreachable),
    (104, ErrorKind::ConnectionReset),
    (111, ErrorKind::ConnectionRefused),
    (113, ErrorKind::HostUnreachable),
];

/// The texts of those that say that a socket is gone or is none, and of some that don't.
const NAMES: &[(i32, &str)] = &[
    (9, "Bad file descriptor (os error 9)"),
    (88, "Socket operation on non-socket (os error 88)"),
    (5, "Input/output error (os error 5)"),
    (19, "No such device (os error 19)"),
    (89, "Destination address required (os error 89)"),
    (90, "Message too long (os error 90)"),
    (105, "No buffer space available (os error 105)"),
    (126, "Required key not available (os error 126)"),
];

/// The numbers of errors that drop one datagram where a send fails with them, and end nothing.
const OF_ONE: &[i32] = &[
    1, 5, 11, 12, 13, 19, 22, 89, 90, 99, 100, 101, 105, 111, 113, 126,
];

/// Those of a socket that is gone, and of one that is none.
const OF_GONE: &[i32] = &[9, 88];

/// What a receive that failed with this number gives: `p` where it is passed over, `n` where nothing is there until the next wait, `f`
/// where it is a fault.
const RECEIVES: &[(i32, u8)] = &[
    (4, b'p'),
    (101, b'p'),
    (104, b'p'),
    (111, b'p'),
    (113, b'p'),
    (11, b'n'),
    (5, b'n'),
    (12, b'n'),
    (22, b'n'),
    (100, b'n'),
    (9, b'f'),
    (88, b'f'),
];

#[test]
fn the_numbers_of_errors_mean_what_they_are_taken_for(rt: HostRuntime) -> Result<(), Fail> {
    for (number, kind) in KINDS {
        assert!(rt;
            io::Error::from_raw_os_error(*number).kind() == *kind,
            "{number}"
        );
    }
    Ok(())
}

#[test]
fn an_error_of_a_socket_that_is_gone_has_its_name(rt: HostRuntime) -> Result<(), Fail> {
    for (number, name) in NAMES {
        let text = to_text(rt.alloc(), io::Error::from_raw_os_error(*number))?;
        assert!(rt; text.as_str() == *name, "{number}");
    }
    Ok(())
}

fn to_text(alloc: Global, error: io::Error) -> Result<String, AllocError> {
    format!(in alloc; "{error}")
}

// rule: posted_at
#[test]
fn an_error_of_one_datagram_is_no_fault(rt: HostRuntime) -> Result<(), Fail> {
    for number in OF_ONE {
        assert!(rt; posted_by(*number) == Posted::Dropped, "{number}");
    }
    for number in OF_GONE {
        assert!(rt; posted_by(*number) == Posted::Failed, "{number}");
    }
    assert!(rt; posted_of(&Ok(3)) == Posted::Sent);
    Ok(())
}

fn posted_by(number: i32) -> Posted {
    posted_of(&Err(io::Error::from_raw_os_error(number)))
}

#[test]
fn a_wait_fails_only_where_what_it_waits_for_is_gone(rt: HostRuntime) -> Result<(), Fail> {
    for number in [4, 11, 12, 22] {
        assert!(rt; waited_by(number), "{number}");
    }
    for number in OF_GONE {
        assert!(rt; !waited_by(*number), "{number}");
    }
    Ok(())
}

fn waited_by(number: i32) -> bool {
    waited_of(Err(io::Error::from_raw_os_error(number))).is_ok()
}

// rule: IsTakenAt
#[test]
fn a_report_of_another_datagram_is_passed_over(rt: HostRuntime) -> Result<(), Fail> {
    for (number, letter) in RECEIVES {
        assert!(rt;
            letter_of(Err(io::Error::from_raw_os_error(*number))) == *letter,
            "{number}"
        );
    }
    assert!(rt; letter_of(Ok((3, SocketAddr::from((Ipv6Addr::LOCALHOST, 9))))) == b'p');
    Ok(())
}

fn letter_of(received: io::Result<(usize, SocketAddr)>) -> u8 {
    match taken_of(received) {
        Ok(Taken::Passed) => b'p',
        Ok(Taken::Nothing) => b'n',
        Ok(Taken::Datagram(_, _)) => b'd',
        Err(_) => b'f',
    }
}

#[test]
fn an_address_is_read_from_its_most_significant_byte(rt: HostRuntime) -> Result<(), Fail> {
    let endpoint = Endpoint {
        addr: 0xc0a8_0102,
        port: 20_808,
    };
    let address = SocketAddr::from((Ipv4Addr::new(192, 168, 1, 2), 20_808));
    assert!(rt; address_of(endpoint) == address);
    assert!(rt; endpoint_of(address) == Some(endpoint));
    Ok(())
}
