//! That a client is served while the network's loop runs, which sends in the group of the words.

ghost use Rattle.std.specs.Prelude.{None};
ghost use Rattle.lk_outside.specs.ListTalk.{seen_of};

use super::super::live::flags::has_come;
use super::super::live::held::Telling;
use super::super::live::sides::{Sides, quiet_port, sides_over};
use super::super::runs::empty_log;
use super::clients::{OPENING, WORDS, client};
use link_daemon::Status;
use lk_base::Endpoint;
use lk_outside::{Bound, ListPace, ListPort, ListTalk, Post, Put, Taken, Talk};
use std::alloc::{AllocError, Global};
use std::sync::Wait;
use std::sync::atomic::AtomicU64;
use std::test::Fail;
use std::thread::Threads;

/// A node with a destination.
const SCRIPT: &[u8] = b"link 1\nsetup 500000 1\ngate 127.0.0.1:20808\nto 127.0.0.1:20809\n";

/// Words, and the bytes of the group that they say.
const GROUPS: &[(&str, [u8; 2])] = &[
    (WORDS, [0, 0]),
    ("control 127.0.0.1:20900 --group 41153", [0xa0, 0xc1]),
];

/// How often the client looks whether the port has sent, in a read at most.
const LOOKS: u64 = 10_000_000;

/// A client that sends its bytes once the port has sent, and none at all where that doesn't come.
#[derive(Drop)]
struct Patient<'a> {
    talk: ListTalk,
    sent: &'a AtomicU64,
}

impl<'a> Talk for Patient<'a> {
    ghost seen = { λ patient. record (seen_of patient.talk) { left = None } };

    fn listen(&mut self, at: Endpoint) -> Bound {
        self.talk.listen(at)
    }

    fn read(&mut self, buf: &mut [u8]) -> Taken {
        if !has_sent(self.sent) {
            return Taken::End;
        }
        self.talk.read(buf)
    }

    fn write(&mut self, bytes: &[u8]) -> Put {
        self.talk.write(bytes)
    }
}

// Waits until the port has sent, and answers whether it has. Other threads run between two looks.
fn has_sent(sent: &AtomicU64) -> bool {
    for _ in 0..LOOKS {
        if has_come(sent, 1, 1) {
            return true;
        }
    }
    false
}

// rule: control_app, controlled_config_from
#[test]
fn a_client_is_served_while_the_network_goes_on(rt: HostRuntime) -> Result<(), Fail> {
    for (words, group) in GROUPS {
        assert!(rt; is_served(&rt, rt.alloc(), words, *group)?, "{words}");
    }
    Ok(())
}

fn is_served<R: Threads + Wait + Sync>(
    rt: &R,
    alloc: Global,
    words: &str,
    group: [u8; 2],
) -> Result<bool, AllocError> {
    let mut sides = sides_over(alloc, SCRIPT, 0)?;
    is_served_beside(rt, alloc, words, group, &mut sides)
}

fn is_served_beside<R: Threads + Wait + Sync>(
    rt: &R,
    alloc: Global,
    words: &str,
    group: [u8; 2],
    sides: &mut Sides,
) -> Result<bool, AllocError> {
    let talk = client(alloc, b"status\n", 4096)?;
    let port = quiet_port(alloc, 100)?;
    is_served_over(rt, alloc, words, group, sides, talk, port)
}

// Whether a client is answered that waits for the port to send, and all that is sent is of the group.
fn is_served_over<R: Threads + Wait + Sync>(
    rt: &R,
    alloc: Global,
    words: &str,
    group: [u8; 2],
    sides: &mut Sides,
    talk: ListTalk,
    port: ListPort,
) -> Result<bool, AllocError> {
    let (over, sent) = (AtomicU64::new(0), AtomicU64::new(0));
    let mut port = Telling {
        port,
        over: &over,
        sent: &sent,
    };
    let mut talk = Patient { talk, sent: &sent };
    let status = sides.run_talking(
        rt,
        alloc,
        words,
        &mut port,
        &mut talk,
        &mut ListPace::new(0),
        &mut empty_log(alloc),
    )?;
    let posts = port.port.posts();
    Ok(
        status == Status::Done
            && talk.talk.bytes() == OPENING
            && !posts.is_empty()
            && posts.iter().all(|post| is_of_group(post, group)),
    )
}

// Whether it is a message of a group. Behind the eight bytes that all messages begin with stand its kind, its time to live and its group.
fn is_of_group(post: &Post, group: [u8; 2]) -> bool {
    let bytes = post.bytes.as_slice();
    bytes.get(10..).unwrap_or(b"").starts_with(&group)
}
