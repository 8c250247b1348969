//! What is told of a run on standard error: what the system refused to send.

use link_adapters::RefusedSends;
use lk_base::Endpoint;
use std::alloc::{AllocError, Global};
use std::cell::RefCell;
use std::fmt::Display;
use std::io;
use std::test::Fail;

/// A standard error that keeps what is printed there.
#[derive(Drop)]
struct Heard<'a> {
    text: &'a RefCell<String>,
}

impl<'a> Eprint for Heard<'a> {
    fn eprint<D: Display + Drop>(&self, value: D) -> io::Result<()> {
        let mut text = self.text.try_borrow_mut()?;
        write!(text, "{value}")?;
        Ok(())
    }

    fn eprintln<D: Display + Drop>(&self, value: D) -> io::Result<()> {
        self.eprint(value)?;
        self.eprint("\n")
    }
}

/// How many datagrams the system refused, to endpoints that follow on each other from 10.0.0.1:1 on, in turn; why; and what is told.
const REFUSALS: &[(u32, u32, i32, &str)] = &[
    (0, 1, 101, ""),
    (
        1,
        1,
        13,
        "jorazhil: the system refused 1 datagram to 10.0.0.1:1, the last for: Permission denied (os error 13)\n",
    ),
    (
        5,
        2,
        101,
        "jorazhil: the system refused 3 datagrams to 10.0.0.1:1, the last for: Network is unreachable (os error 101)\n\
         jorazhil: the system refused 2 datagrams to 10.0.0.2:1, the last for: Network is unreachable (os error 101)\n",
    ),
];

// rule: rows_after
#[test]
fn what_the_system_refused_is_told_by_destination(rt: HostRuntime) -> Result<(), Fail> {
    for (count, ends, number, told) in REFUSALS {
        let text = refusals_told(rt.alloc(), *count, *ends, *number)?;
        assert!(rt; text.as_str() == *told, "{text}");
    }
    Ok(())
}

// rule: rows_after
#[test]
fn destinations_behind_the_32nd_are_told_together(rt: HostRuntime) -> Result<(), Fail> {
    let text = refusals_told(rt.alloc(), 70, 35, 1)?;
    assert!(rt; text.lines().count() == 33);
    assert!(rt;
        text.as_str().ends_with(
            "2 datagrams to 10.0.0.32:1, the last for: Operation not permitted (os error 1)\n\
         jorazhil: the system refused 6 datagrams to further destinations\n"
        )
    );
    Ok(())
}

// What is told of so many datagrams to so many destinations in turn that were refused for this.
fn refusals_told(alloc: Global, count: u32, ends: u32, number: i32) -> Result<String, AllocError> {
    let text = RefCell::new(String::new(alloc));
    let mut refused = RefusedSends::new(alloc)?;
    for turn in 0..count {
        let to = Endpoint {
            addr: 0x0a00_0001u32.saturating_add(turn.checked_rem(ends).unwrap_or(0)),
            port: 1,
        };
        refused.count(to, io::Error::from_raw_os_error(number));
    }
    refused.tell(&Heard { text: &text }, "jorazhil");
    Ok(text.into_inner())
}
