//! A talk in memory.

ghost use Rattle.std.specs.Prelude.{IsSome};
ghost use Rattle.lk_outside.specs.ListTalk.{opened_of};

use crate::tests::expect;
use lk_base::Endpoint;
use lk_outside::Bound::Ready;
use lk_outside::Put::Took;
use lk_outside::Taken::{End, Got};
use lk_outside::{Bound, HEAR, LISTEN, ListTalk, Put, SAY, Taken, Talk};
use std::alloc::Global;
use std::process::Abort;

const HERE: Endpoint = Endpoint {
    addr: 0x7F00_0001,
    port: 5001,
};

// What each client sends.
const SENT: &[u8] = b"beat";

// What is done with a talk, and what comes of it.
enum Step {
    Listen(Bound),
    // Reads into dots; those bytes afterwards.
    Read(Taken, &'static [u8]),
    Write(&'static [u8], Put),
    // The client's bytes that are left, those written to it, and how many calls failed.
    Stands(&'static [u8], &'static [u8], u64),
}

// A call that is never made.
const NEVER: (u8, u64) = (SAY, 0);

// What the calls to listen answer before the one that opens the talk, and what comes behind that one. Where a later call fails, the talk
// stays open.
const LISTENS: &[((u8, u64), &[Bound], &[Step])] = &[
    (
        NEVER,
        &[],
        &[
            Step::Stands(SENT, b"", 0),
            Step::Listen(Ready),
            Step::Read(Got(2), b"be."),
            Step::Stands(b"at", b"", 0),
        ],
    ),
    (
        (LISTEN, 1),
        &[Bound::Failed],
        &[
            Step::Stands(SENT, b"", 1),
            Step::Read(Got(2), b"be."),
            Step::Write(b"x", Took(1)),
            Step::Listen(Ready),
            Step::Stands(b"at", b"x", 1),
        ],
    ),
    (
        (LISTEN, 2),
        &[],
        &[
            Step::Read(Got(2), b"be."),
            Step::Write(b"x", Took(1)),
            Step::Listen(Bound::Failed),
            Step::Stands(b"at", b"x", 1),
            Step::Read(Got(2), b"at."),
            Step::Write(b"y", Took(1)),
            Step::Listen(Ready),
            Step::Stands(b"", b"xy", 1),
        ],
    ),
];

// The read that fails. A read gives two bytes at most, and no more than there is room for.
const READS: &[(u64, &[Step])] = &[
    (
        0,
        &[
            Step::Read(Got(2), b"be..."),
            Step::Read(Got(1), b"a"),
            Step::Read(Got(1), b"t."),
            Step::Read(End, b".."),
            Step::Read(End, b".."),
            Step::Stands(b"", b"", 0),
        ],
    ),
    (
        1,
        &[
            Step::Read(Taken::Failed, b"..."),
            Step::Stands(SENT, b"", 1),
            Step::Read(Got(2), b"be."),
        ],
    ),
    (
        2,
        &[
            Step::Read(Got(2), b"be."),
            Step::Read(Taken::Failed, b"..."),
            Step::Stands(b"at", b"", 1),
            Step::Read(Got(2), b"at."),
        ],
    ),
    // The read that would have met the end.
    (
        3,
        &[
            Step::Read(Got(2), b"be."),
            Step::Read(Got(2), b"at."),
            Step::Read(Taken::Failed, b"..."),
            Step::Read(End, b"..."),
            Step::Stands(b"", b"", 1),
        ],
    ),
];

// The write that fails. There is room for four bytes.
const WRITES: &[(u64, &[Step])] = &[
    (
        0,
        &[
            Step::Write(b"abc", Took(3)),
            Step::Write(b"def", Took(1)),
            Step::Write(b"g", Put::Failed),
            Step::Write(b"g", Put::Failed),
            Step::Stands(SENT, b"abcd", 2),
            Step::Read(Got(2), b"be."),
        ],
    ),
    (
        1,
        &[
            Step::Write(b"abc", Put::Failed),
            Step::Stands(SENT, b"", 1),
            Step::Write(b"abcdef", Took(4)),
            Step::Stands(SENT, b"abcd", 1),
        ],
    ),
    (
        2,
        &[
            Step::Write(b"a", Took(1)),
            Step::Write(b"b", Put::Failed),
            Step::Read(Got(2), b"be."),
            Step::Write(b"c", Took(1)),
            Step::Stands(b"at", b"ac", 1),
        ],
    ),
];

// Steps on a talk of which this call fails. The calls to listen before the one that opens it answer so.
fn expect_run(
    rt: &impl Abort,
    alloc: Global,
    failing: (u8, u64),
    before: &[Bound],
    steps: &[Step],
) {
    let failing = vec![in alloc; failing].expect(rt, "memory for a call");
    let sent = SENT.to_vec(alloc).expect(rt, "memory for bytes");
    let talk = ListTalk::new(alloc, sent, 2, 4, failing);
    let mut talk = talk.expect(rt, "memory for a talk");
    for bound in before {
        expect(rt, &"listen", &talk.listen(HERE), bound);
    }
    assert!(rt; talk.listen(HERE) == Ready);
    play(rt, &mut talk, steps);
}

fn play(rt: &impl Abort, talk: &mut ListTalk, steps: &[Step])
    requires { IsSome (opened_of talk.old) }
{
    for (k, step) in steps.iter().enumerate() {
        take(rt, talk, k, step);
    }
}

fn take(rt: &impl Abort, talk: &mut ListTalk, k: usize, step: &Step)
    requires { IsSome (opened_of talk.old) }
    ensures { IsSome (opened_of talk.new) }
{
    match step {
        Step::Listen(bound) => expect_listen(rt, talk, k, *bound),
        Step::Read(taken, bytes) => expect_read(rt, talk, k, *taken, bytes),
        Step::Write(bytes, put) => expect_write(rt, talk, k, bytes, *put),
        Step::Stands(rest, bytes, faults) => {
            let stands = (talk.rest(), talk.bytes(), talk.fault_count());
            expect(rt, &k, &stands, &(*rest, *bytes, *faults));
        }
    }
}

fn expect_listen(rt: &impl Abort, talk: &mut ListTalk, k: usize, bound: Bound)
    requires { IsSome (opened_of talk.old) }
    ensures { IsSome (opened_of talk.new) }
{
    let found = listened(talk);
    expect(rt, &k, &found, &bound);
}

// Whatever the talk answers, it stays open.
fn listened(talk: &mut ListTalk) -> Bound
    requires { IsSome (opened_of talk.old) }
    ensures { IsSome (opened_of talk.new) }
{
    match talk.listen(HERE) {
        Ready => Ready,
        Bound::Failed => Bound::Failed,
    }
}

fn expect_read(rt: &impl Abort, talk: &mut ListTalk, k: usize, taken: Taken, bytes: &[u8])
    requires { IsSome (opened_of talk.old) }
    ensures { IsSome (opened_of talk.new) }
{
    let mut dots = [b'.'; 5];
    assert!(rt; 1 <= bytes.len() && bytes.len() <= 5);
    let found = talk.read(&mut dots[..bytes.len()]);
    expect_dots(rt, k, found, &dots, taken, bytes);
}

fn expect_dots(rt: &impl Abort, k: usize, found: Taken, dots: &[u8], taken: Taken, bytes: &[u8]) {
    expect(rt, &k, &found, &taken);
    expect(rt, &k, &dots.starts_with(bytes), &true);
}

fn expect_write(rt: &impl Abort, talk: &mut ListTalk, k: usize, bytes: &[u8], put: Put)
    requires { IsSome (opened_of talk.old) }
    ensures { IsSome (opened_of talk.new) }
{
    assert!(rt; !bytes.is_empty());
    expect(rt, &k, &talk.write(bytes), &put);
}

// rule: Rose
#[test]
fn a_talk_is_open_from_the_first_listening_that_succeeds(rt: HostRuntime) {
    for &(call, before, steps) in LISTENS {
        expect_run(&rt, rt.alloc(), call, before, steps);
    }
}

// rule: Rose
#[test]
fn a_failing_read_takes_nothing(rt: HostRuntime) {
    for &(call, steps) in READS {
        expect_run(&rt, rt.alloc(), (HEAR, call), &[], steps);
    }
}

// rule: Rose
#[test]
fn a_failing_write_writes_nothing(rt: HostRuntime) {
    for &(call, steps) in WRITES {
        expect_run(&rt, rt.alloc(), (SAY, call), &[], steps);
    }
}
