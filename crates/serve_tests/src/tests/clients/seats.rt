//! Who gets a seat, and who is let go.

use super::session::{Does, Given, USUAL, served, steps_of};
use super::told::{count_of, told_to};
use link_clients::ServeEnd;
use lk_talks::Happened;
use std::alloc::Global;
use std::process::Abort;
use std::sync::Wait;
use std::thread::Threads;

// What the clients do behind the first 15, how many come to a seat in all, how many there are at most, and what the first one is told.
const FULL: &[(&[Does], u64, u32, &[u8])] = &[
    (
        &[Does::Rests(2), Does::Sends(0, b"clients\n"), Does::Rests(3)],
        15,
        15,
        b"clients 15\n",
    ),
    // A sixteenth is turned away, and has no seat that becomes free.
    (
        &[
            Does::Comes,
            Does::Rests(3),
            Does::Goes(7),
            Does::Rests(3),
            Does::Sends(0, b"clients\n"),
            Does::Rests(3),
        ],
        15,
        15,
        b"clients 14\n",
    ),
    // Who comes behind that has it.
    (
        &[
            Does::Comes,
            Does::Rests(3),
            Does::Goes(7),
            Does::Rests(2),
            Does::Comes,
            Does::Rests(2),
            Does::Sends(0, b"clients\n"),
            Does::Rests(3),
        ],
        16,
        15,
        b"clients 15\n",
    ),
];

fn expect_full<R: Threads + Wait + Sync + Abort>(
    rt: &R,
    alloc: Global,
    does: &[Does],
    came: u64,
    most: u32,
    told: &[u8],
) {
    let mut steps = steps_of(rt, alloc, &[Does::Comes; 15]);
    let more = steps_of(rt, alloc, does);
    assert!(rt; steps.extend(more).is_ok(), "memory for steps");
    let session = served(rt, alloc, steps, &USUAL);
    let passed = session.talks.passed();
    let found = told_to(rt, alloc, passed, 0);
    assert_eq!(rt; found.as_slice(), told);
    let right = count_of(passed, b'c') == came && session.lookout.most == most;
    assert!(rt; right && session.run.end == ServeEnd::Well, "{came}");
}

// rule: HasHosted
#[test]
fn there_are_seats_for_15_clients(rt: HostRuntime) {
    for &(does, came, most, told) in FULL {
        expect_full(&rt, rt.alloc(), does, came, most, told);
    }
}

// How far looks and lines are from each other.
const LATE: i64 = 100_000_000;

// What clients do, and how many are let go.
//
// The looks of who says no line are at 100 seconds, 200 and so on. A client that comes at the first one is let go at the seventh, which is
// ten minutes later.
const SILENT: &[(&[Does], u64)] = &[
    (&[Does::Comes, Does::Rests(6)], 0),
    (&[Does::Comes, Does::Rests(7)], 1),
    (&[Does::Comes, Does::Rests(20)], 1),
    (&[Does::Comes, Does::Comes, Does::Comes, Does::Rests(7)], 3),
    // Bytes that are no line yet are something too: they are heard at the fifth look, and it is let go at the eleventh.
    (
        &[
            Does::Comes,
            Does::Rests(4),
            Does::Sends(0, b"s"),
            Does::Rests(6),
        ],
        0,
    ),
    (
        &[
            Does::Comes,
            Does::Rests(4),
            Does::Sends(0, b"s"),
            Does::Rests(7),
        ],
        1,
    ),
    // The line is at 200 seconds, so the second look is at 300 and the sixth one at 700. It was heard at the first.
    (&[Does::Comes, Does::Sends(0, b"now\n"), Does::Rests(5)], 0),
    (&[Does::Comes, Does::Sends(0, b"now\n"), Does::Rests(6)], 1),
    // Who watches isn't let go, unless what it is told waits that long.
    (
        &[Does::Comes, Does::Sends(0, b"watch\n"), Does::Rests(30)],
        0,
    ),
    (
        &[
            Does::Comes,
            Does::Sends(0, b"watch\n"),
            Does::Rests(1),
            Does::Clogs(0),
            Does::Rests(4),
        ],
        0,
    ),
    (
        &[
            Does::Comes,
            Does::Sends(0, b"watch\n"),
            Does::Rests(1),
            Does::Clogs(0),
            Does::Rests(5),
        ],
        1,
    ),
    (
        &[
            Does::Comes,
            Does::Sends(0, b"watch\n"),
            Does::Rests(1),
            Does::Clogs(0),
            Does::Rests(3),
            Does::Clears(0),
            Does::Rests(20),
        ],
        0,
    ),
    // What a clogged one sends isn't heard.
    (
        &[
            Does::Comes,
            Does::Clogs(0),
            Does::Sends(0, b"now\n"),
            Does::Rests(6),
        ],
        0,
    ),
    (
        &[
            Does::Comes,
            Does::Clogs(0),
            Does::Sends(0, b"now\n"),
            Does::Rests(7),
        ],
        1,
    ),
    // Who watches no longer is let go: its lines are at 200 and 300 seconds, and the fifth look at 700.
    (
        &[
            Does::Comes,
            Does::Sends(0, b"watch\nunwatch\n"),
            Does::Rests(4),
        ],
        0,
    ),
    (
        &[
            Does::Comes,
            Does::Sends(0, b"watch\nunwatch\n"),
            Does::Rests(5),
        ],
        1,
    ),
    // The one that has the seat then has its own ten minutes.
    (
        &[Does::Comes, Does::Rests(7), Does::Comes, Does::Rests(6)],
        1,
    ),
    (
        &[Does::Comes, Does::Rests(7), Does::Comes, Does::Rests(7)],
        2,
    ),
];

fn expect_silent<R: Threads + Wait + Sync + Abort>(
    rt: &R,
    alloc: Global,
    does: &[Does],
    gone: u64,
    number: usize,
) {
    let given = Given {
        late: LATE,
        ..USUAL
    };
    let session = served(rt, alloc, steps_of(rt, alloc, does), &given);
    let found = count_of(session.talks.passed(), b's');
    assert!(rt; session.run.end == ServeEnd::Well, "{number}");
    assert_eq!(rt; found, gone, "{number}");
}

// rule: IsSilent
#[test]
fn who_says_nothing_for_ten_minutes_is_let_go(rt: HostRuntime) {
    for (number, &(does, gone)) in SILENT.iter().enumerate() {
        expect_silent(&rt, rt.alloc(), does, gone, number);
    }
}

// One that was let go isn't heard any more, and another one in its seat is.
//
// rule: IsSilent
#[test]
fn a_seat_is_free_behind_who_was_let_go(rt: HostRuntime) {
    let does = &[
        Does::Comes,
        Does::Sends(0, b"sta"),
        Does::Rests(7),
        Does::Sends(0, b"tus\n"),
        Does::Rests(1),
        Does::Comes,
        Does::Sends(0, b"clients\n"),
        Does::Rests(2),
    ];
    let given = Given {
        late: LATE,
        ..USUAL
    };
    let alloc = rt.alloc();
    let session = served(&rt, alloc, steps_of(&rt, alloc, does), &given);
    let passed = session.talks.passed();
    assert_eq!(&rt;
        told_to(&rt, alloc, passed, 0).as_slice(),
        b"clients 1\n".as_slice()
    );
    assert!(&rt; matches!(passed.last(), Some(Happened::Said(0, _))));
}
