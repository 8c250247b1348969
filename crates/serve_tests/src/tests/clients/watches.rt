//! What clients are told that watch.
//!
//! Looks and lines are 250,000 from each other, if nothing else is said.

use super::session::{Does, Given, USUAL, served, steps_of};
use super::told::expect_told;
use link_clients::ServeEnd;
use std::alloc::Global;
use std::process::Abort;
use std::sync::Wait;
use std::thread::Threads;

// How far looks and lines are from each other, what the clients do, and what each is told by its seat.
struct Row {
    late: i64,
    does: &'static [Does<'static>],
    told: &'static [&'static [u8]],
}

const ROWS: &[Row] = &[
    // Another client's tempo is told once. It is set at 1,000,000, which is beat 2.
    Row {
        late: 250_000,
        does: &[
            Does::Comes,
            Does::Comes,
            Does::Sends(0, b"watch\n"),
            Does::Rests(1),
            Does::Sends(1, b"tempo 250000\n"),
            Does::Rests(5),
        ],
        told: &[
            b"ok\nchanged 250000 0 500000 0 0 0 4000000 4141414141414141 N\n",
            b"ok 1\n",
        ],
    },
    // And so is one's own.
    Row {
        late: 250_000,
        does: &[
            Does::Comes,
            Does::Sends(0, b"watch\ntempo 1000000\n"),
            Does::Rests(5),
        ],
        told: &[b"ok\nok 1\nchanged 1000000 0 -750000 0 0 0 4000000 4141414141414141 N\n"],
    },
    // Where nothing differs nothing is told.
    Row {
        late: 250_000,
        does: &[
            Does::Comes,
            Does::Comes,
            Does::Sends(0, b"watch\n"),
            Does::Rests(1),
            Does::Sends(
                1,
                b"tempo 500000\nquantum 4000000\nstop 0\nforce 2000000 1000000\n",
            ),
            Does::Rests(5),
        ],
        told: &[b"ok\n", b"ok 1\nok 2\nok 3\nok 4\n"],
    },
    // What was set before one watches isn't told.
    Row {
        late: 250_000,
        does: &[
            Does::Comes,
            Does::Comes,
            Does::Sends(1, b"play 5\n"),
            Does::Rests(1),
            Does::Sends(0, b"watch\nstatus\n"),
            Does::Rests(5),
        ],
        told: &[
            b"ok\nstatus 500000 0 0 1 5 0 4000000 4141414141414141 N\n",
            b"ok 1\n",
        ],
    },
    // Who doesn't watch, or no longer, is told nothing.
    Row {
        late: 250_000,
        does: &[
            Does::Comes,
            Does::Comes,
            Does::Comes,
            Does::Sends(0, b"watch\n"),
            Does::Rests(1),
            Does::Sends(0, b"unwatch\n"),
            Does::Rests(1),
            Does::Sends(1, b"play 5\n"),
            Does::Rests(5),
        ],
        told: &[b"ok\nok\n", b"ok 1\n", b""],
    },
    // One that begins anew isn't told what was shown before.
    Row {
        late: 250_000,
        does: &[
            Does::Comes,
            Does::Comes,
            Does::Sends(0, b"watch\nunwatch\n"),
            Does::Rests(1),
            Does::Sends(1, b"play 5\n"),
            Does::Rests(2),
            Does::Sends(0, b"watch\n"),
            Does::Rests(2),
            Does::Sends(1, b"play 6\n"),
            Does::Rests(5),
        ],
        told: &[
            b"ok\nok\nok\nchanged 500000 0 0 1 6 0 4000000 4141414141414141 N\n",
            b"ok 1\nok 2\n",
        ],
    },
    // Two that watch are told both, and the same.
    Row {
        late: 250_000,
        does: &[
            Does::Comes,
            Does::Comes,
            Does::Comes,
            Does::Sends(0, b"watch\n"),
            Does::Sends(2, b"watch\n"),
            Does::Rests(1),
            Does::Sends(1, b"play 5\n"),
            Does::Rests(5),
        ],
        told: &[
            b"ok\nchanged 500000 0 0 1 5 0 4000000 4141414141414141 N\n",
            b"ok 1\n",
            b"ok\nchanged 500000 0 0 1 5 0 4000000 4141414141414141 N\n",
        ],
    },
    // The client that comes to the seat of one that watched doesn't.
    Row {
        late: 250_000,
        does: &[
            Does::Comes,
            Does::Comes,
            Does::Sends(0, b"watch\n"),
            Does::Rests(1),
            Does::Goes(0),
            Does::Rests(1),
            Does::Comes,
            Does::Rests(1),
            Does::Sends(1, b"play 5\n"),
            Does::Rests(5),
        ],
        told: &[b"ok\n", b"ok 1\n"],
    },
    // One that is clogged is neither heard nor told until it is clear, and then told the newest alone.
    Row {
        late: 250_000,
        does: &[
            Does::Comes,
            Does::Comes,
            Does::Sends(0, b"watch\n"),
            Does::Rests(1),
            Does::Clogs(0),
            Does::Sends(0, b"play 9\n"),
            Does::Sends(1, b"quantum 1000000\n"),
            Does::Rests(3),
            Does::Sends(1, b"quantum 2000000\n"),
            Does::Rests(3),
            Does::Sends(1, b"quantum 3000000\n"),
            Does::Rests(3),
            Does::Clears(0),
            Does::Rests(5),
        ],
        told: &[
            b"ok\nok 4\n\
            changed 500000 0 0 0 0 0 3000000 4141414141414141 N\n\
            changed 500000 0 0 1 9 0 3000000 4141414141414141 N\n",
            b"ok 1\nok 2\nok 3\n",
        ],
    },
    // And nothing at all where what it missed was undone.
    Row {
        late: 250_000,
        does: &[
            Does::Comes,
            Does::Comes,
            Does::Sends(0, b"watch\n"),
            Does::Rests(1),
            Does::Clogs(0),
            Does::Sends(1, b"quantum 1000000\n"),
            Does::Rests(3),
            Does::Sends(1, b"quantum 4000000\n"),
            Does::Rests(3),
            Does::Clears(0),
            Does::Rests(5),
        ],
        told: &[b"ok\n", b"ok 1\nok 2\n"],
    },
    // At most one each 5 milliseconds. The quanta are set at 4,000, 6,000, 8,000 and 10,000. The first one is seen by the line of the
    // second and told at 6,000, so the next ones not before 11,000.
    Row {
        late: 1_000,
        does: &[
            Does::Comes,
            Does::Comes,
            Does::Sends(0, b"watch\n"),
            Does::Rests(1),
            Does::Sends(1, b"quantum 1000000\n"),
            Does::Rests(1),
            Does::Sends(1, b"quantum 2000000\n"),
            Does::Rests(1),
            Does::Sends(1, b"quantum 3000000\n"),
            Does::Rests(1),
            Does::Sends(1, b"quantum 5000000\n"),
            Does::Rests(9),
        ],
        told: &[
            b"ok\n\
            changed 500000 0 0 0 0 0 1000000 4141414141414141 N\n\
            changed 500000 0 0 0 0 0 5000000 4141414141414141 N\n",
            b"ok 1\nok 2\nok 3\nok 4\n",
        ],
    },
    // Where time stands still at the opening nothing is told.
    Row {
        late: 0,
        does: &[
            Does::Comes,
            Does::Sends(0, b"watch\nplay 5\n"),
            Does::Rests(9),
        ],
        told: &[b"ok\nok 1\n"],
    },
];

fn expect_row<R: Threads + Wait + Sync + Abort>(rt: &R, alloc: Global, row: &Row, number: usize) {
    let given = Given {
        late: row.late,
        ..USUAL
    };
    let session = served(rt, alloc, steps_of(rt, alloc, row.does), &given);
    assert!(rt; session.run.end == ServeEnd::Well, "{number}");
    expect_told(rt, alloc, session.talks.passed(), row.told, number);
}

// rule: IsNews, switched_of, changed_text_of
#[test]
fn who_watches_is_told_what_is_shown(rt: HostRuntime) {
    for (number, row) in ROWS.iter().enumerate() {
        expect_row(&rt, rt.alloc(), row, number);
    }
}
