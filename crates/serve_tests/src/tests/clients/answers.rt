//! What clients are answered, worked out by hand.
//!
//! The first look is at 250,000, and each further look and each line is 250,000 later than the one before.

use super::session::{Does, Given, USUAL, served, steps_of};
use super::told::{commits_in, expect_told};
use link_clients::ServeEnd;
use std::alloc::Global;
use std::process::Abort;
use std::sync::Wait;
use std::thread::Threads;

// What the clients do, whether they may ask for the end, what each is told by its seat, and how many commits stand in the journal.
struct Row {
    does: &'static [Does<'static>],
    may_end: bool,
    told: &'static [&'static [u8]],
    commits: u64,
}

const ROWS: &[Row] = &[
    Row {
        does: &[Does::Rests(3)],
        may_end: false,
        told: &[b""],
        commits: 0,
    },
    // At 750,000 it is beat 1.5, and so 1.5 beats of four a second are to be before it: beat 0 is at 375,000 then.
    Row {
        does: &[
            Does::Comes,
            Does::Comes,
            Does::Sends(0, b"now\ntempo 250000\nnow\n"),
            Does::Rests(1),
            Does::Sends(1, b"now\n"),
            Does::Rests(2),
        ],
        may_end: false,
        told: &[
            b"now 500000 1000000 1000000\nok 1\nnow 1000000 2500000 2500000\n",
            b"now 1500000 4500000 500000\n",
        ],
        commits: 1,
    },
    // Without a time it is the moment of the line.
    Row {
        does: &[
            Does::Comes,
            Does::Sends(
                0,
                b"status\nplay\nstatus\nstop\nstatus\nplay 123\nstop -5\nstatus\n",
            ),
            Does::Rests(2),
        ],
        may_end: false,
        told: &[
            b"status 500000 0 0 0 0 0 4000000 4141414141414141 N\nok 1\n\
            status 500000 0 0 1 750000 0 4000000 4141414141414141 N\nok 2\n\
            status 500000 0 0 0 1250000 0 4000000 4141414141414141 N\nok 3\nok 4\n\
            status 500000 0 0 0 -5 0 4000000 4141414141414141 N\n",
        ],
        commits: 4,
    },
    // Beats are counted from the beat origin, which becomes beat 8 at 500,000.
    Row {
        does: &[
            Does::Comes,
            Does::Sends(
                0,
                b"force 8000000 500000\nstatus\nbeat 0\nphase 0\ntime 0\nnow\n",
            ),
            Does::Rests(2),
        ],
        may_end: false,
        told: &[
            b"ok 1\nstatus 500000 8000000 500000 0 0 0 4000000 4141414141414141 N\n\
            beat -1000000\nphase 3000000\ntime 500000\nnow 1750000 2500000 2500000\n",
        ],
        commits: 1,
    },
    // Without peers a requested beat is forced: beat 2 at 250,000 is 2 beats behind -750,000.
    Row {
        does: &[
            Does::Comes,
            Does::Sends(0, b"request 2000000 250000\nstatus\nbeat 250000\n"),
            Does::Rests(2),
        ],
        may_end: false,
        told: &[b"ok 1\nstatus 500000 0 -750000 0 0 0 4000000 4141414141414141 N\nbeat 2000000\n"],
        commits: 1,
    },
    Row {
        does: &[
            Does::Comes,
            Does::Sends(
                0,
                b"quantum 3000000\nphase 2000000\nquantum 0\nphase 2000000\nstatus\n",
            ),
            Does::Rests(2),
        ],
        may_end: false,
        told: &[
            b"ok 1\nphase 1000000\nok 2\nphase 0\n\
            status 500000 0 0 0 0 0 0 4141414141414141 N\n",
        ],
        commits: 2,
    },
    // 60,000,000 microseconds have 120.5 beats of 497,925.3. At 500,000 it is beat 1, and so beat 0 is at 2,075 then.
    Row {
        does: &[
            Does::Comes,
            Does::Sends(0, b"bpm 120.5\nstatus\n"),
            Does::Rests(2),
        ],
        may_end: false,
        told: &[b"ok 1\nstatus 497925 0 2075 0 0 0 4000000 4141414141414141 N\n"],
        commits: 1,
    },
    // What the others do is seen.
    Row {
        does: &[
            Does::Comes,
            Does::Comes,
            Does::Comes,
            Does::Sends(1, b"clients\ngates\n"),
            Does::Sends(2, b"play 7\n"),
            Does::Rests(1),
            Does::Goes(0),
            Does::Sends(1, b"clients\nstatus\n"),
            Does::Rests(2),
        ],
        may_end: false,
        told: &[
            b"",
            b"clients 3\ngates 2 bound 0 failed 20\nclients 2\nstatus 500000 0 0 1 7 0 4000000 4141414141414141 N\n",
            b"ok 1\n",
        ],
        commits: 1,
    },
    // Each line feed ends a line, with a carriage return before it or without one, and what stands behind the last one is none.
    Row {
        does: &[
            Does::Comes,
            Does::Sends(
                0,
                b"play 1\r\n\n\r\nplay 1 \r\npl\nay\nPLAY\nplay\r\r\nend\r\nstop",
            ),
            Does::Rests(3),
        ],
        may_end: false,
        told: &[
            b"ok 1\n\
            bad no such command; there are status now beat phase time tempo bpm play stop force request quantum watch unwatch clients gates end\n\
            bad no such command; there are status now beat phase time tempo bpm play stop force request quantum watch unwatch clients gates end\n\
            bad play takes nothing, or a time in microseconds, within 2^60 of 0\n\
            bad no such command; there are status now beat phase time tempo bpm play stop force request quantum watch unwatch clients gates end\n\
            bad no such command; there are status now beat phase time tempo bpm play stop force request quantum watch unwatch clients gates end\n\
            bad no such command; there are status now beat phase time tempo bpm play stop force request quantum watch unwatch clients gates end\n\
            bad no such command; there are status now beat phase time tempo bpm play stop force request quantum watch unwatch clients gates end\n\
            bad end is for a server that was started with --end-allowed\n",
        ],
        commits: 1,
    },
    // Lines of 128 and of 129 bytes, and one behind each.
    Row {
        does: &[
            Does::Comes,
            Does::Sends(
                0,
                b"bbbbbbbbbbbbbbbbbbbbbbbbbbbbbbbbbbbbbbbbbbbbbbbbbbbbbbbbbbbbbbbbbbbbbbbbbbbbbbbbbbbbbbbbbbbbbbbbbbbbbbbbbbbbbbbbbbbbbbbbbbbbbbbb\nplay 2\nbbbbbbbbbbbbbbbbbbbbbbbbbbbbbbbbbbbbbbbbbbbbbbbbbbbbbbbbbbbbbbbbbbbbbbbbbbbbbbbbbbbbbbbbbbbbbbbbbbbbbbbbbbbbbbbbbbbbbbbbbbbbbbbbb\nplay 3\n",
            ),
            Does::Rests(9),
        ],
        may_end: false,
        told: &[
            b"bad no such command; there are status now beat phase time tempo bpm play stop force request quantum watch unwatch clients gates end\n\
            ok 1\nbad a line has at most 128 bytes\nok 2\n",
        ],
        commits: 2,
    },
    // Where a client may ask for the end, nothing behind that is answered.
    Row {
        does: &[
            Does::Comes,
            Does::Comes,
            Does::Sends(0, b"play 5\nend\nplay 6\n"),
            Does::Sends(1, b"play 7\n"),
            Does::Rests(9),
        ],
        may_end: true,
        told: &[b"ok 1\nok\n", b""],
        commits: 1,
    },
    // What a client that left had sent is done, and it isn't told.
    Row {
        does: &[
            Does::Comes,
            Does::Sends(0, b"play 5\nplay 6\n"),
            Does::Goes(0),
            Does::Rests(3),
        ],
        may_end: false,
        told: &[b""],
        commits: 1,
    },
    // Nothing of a line that a client left is another one's in the same seat.
    Row {
        does: &[
            Does::Comes,
            Does::Sends(0, b"sta"),
            Does::Rests(1),
            Does::Goes(0),
            Does::Rests(1),
            Does::Comes,
            Does::Sends(0, b"tus\nclients\n"),
            Does::Rests(2),
        ],
        may_end: false,
        told: &[
            b"bad no such command; there are status now beat phase time tempo bpm play stop force request quantum watch unwatch clients gates end\n\
            clients 1\n",
        ],
        commits: 0,
    },
];

fn expect_row<R: Threads + Wait + Sync + Abort>(rt: &R, alloc: Global, row: &Row, number: usize) {
    let given = Given {
        may_end: row.may_end,
        ..USUAL
    };
    let session = served(rt, alloc, steps_of(rt, alloc, row.does), &given);
    let right = session.run.end == ServeEnd::Well && commits_in(&session.run.events) == row.commits;
    assert!(rt; right, "{number}");
    expect_told(rt, alloc, session.talks.passed(), row.told, number);
}

// rule: answer_of_line, edited_by
#[test]
fn each_client_is_answered_line_by_line(rt: HostRuntime) {
    for (number, row) in ROWS.iter().enumerate() {
        expect_row(&rt, rt.alloc(), row, number);
    }
}
