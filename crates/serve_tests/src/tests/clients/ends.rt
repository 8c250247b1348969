//! How sessions end.

use super::session::{Does, Given, USUAL, served, steps_of};
use super::told::{commits_in, told_to};
use link_clients::ServeEnd;
use std::alloc::Global;
use std::process::Abort;
use std::sync::Wait;
use std::thread::Threads;

// In each round a client says a line.
const DOES: &[Does] = &[
    Does::Comes,
    Does::Sends(0, b"play\n"),
    Does::Rests(1),
    Does::Sends(0, b"play\n"),
    Does::Rests(1),
    Does::Sends(0, b"play\n"),
    Does::Rests(1),
    Does::Sends(0, b"play\n"),
    Does::Rests(1),
];

// What is told of so many lines.
const TOLD: &[&[u8]] = &[
    b"",
    b"ok 1\n",
    b"ok 1\nok 2\n",
    b"ok 1\nok 2\nok 3\n",
    b"ok 1\nok 2\nok 3\nok 4\n",
];

// When serving ends, at which look the journal is said to take nothing more, and how many events it takes; how the session ends, how many
// lines are answered, how many commits stand in the journal, and how many looks there were.
//
// The looks are at 250,000, 750,000, 1,250,000 and 1,750,000, and the lines 250,000 later each. The journal takes a tick too.
const ROWS: &[((i64, u64, u64), ServeEnd, usize, u64, u64)] = &[
    ((9_000_000, 0, 300), ServeEnd::Well, 4, 4, 4),
    ((0, 0, 300), ServeEnd::Well, 0, 0, 1),
    ((250_000, 0, 300), ServeEnd::Well, 0, 0, 1),
    ((250_001, 0, 300), ServeEnd::Well, 1, 1, 2),
    ((750_000, 0, 300), ServeEnd::Well, 1, 1, 2),
    // A line that is later is answered.
    ((750_001, 0, 300), ServeEnd::Well, 2, 2, 3),
    ((1_750_000, 0, 300), ServeEnd::Well, 3, 3, 4),
    ((1_750_001, 0, 300), ServeEnd::Well, 4, 4, 4),
    ((9_000_000, 1, 300), ServeEnd::Events, 0, 0, 1),
    ((9_000_000, 3, 300), ServeEnd::Events, 2, 2, 3),
    ((9_000_000, 5, 300), ServeEnd::Well, 4, 4, 4),
    // Both at once.
    ((750_000, 2, 300), ServeEnd::Events, 1, 1, 2),
    // The last commits and the goodbye find no room.
    ((9_000_000, 0, 6), ServeEnd::Well, 4, 4, 4),
    ((9_000_000, 0, 5), ServeEnd::Events, 4, 4, 4),
    ((9_000_000, 0, 3), ServeEnd::Events, 4, 2, 4),
];

fn expect_row<R: Threads + Wait + Sync + Abort>(
    rt: &R,
    alloc: Global,
    given: &Given,
    wanted: (ServeEnd, usize, u64, u64),
    number: usize,
) {
    let session = served(rt, alloc, steps_of(rt, alloc, DOES), given);
    let (end, lines, commits, looks) = wanted;
    let right = session.run.end == end
        && commits_in(&session.run.events) == commits
        && session.lookout.looks == looks;
    assert!(rt; right, "{number}");
    let told = told_to(rt, alloc, session.talks.passed(), 0);
    assert_eq!(rt; told.as_slice(), told_of(lines), "{number}");
}

fn told_of(lines: usize) -> &'static [u8] {
    match TOLD.get(lines) {
        Some(told) => told,
        None => b"more",
    }
}

// rule: IsOver, EndsHosting, ServeRun.first_of
#[test]
fn serving_ends_at_its_moment_or_with_the_journal(rt: HostRuntime) {
    for (number, &((ends_at, full_at, events), end, lines, commits, looks)) in ROWS
        .iter()
        .enumerate()
    {
        let given = Given {
            ends_at,
            full_at,
            events,
            ..USUAL
        };
        expect_row(
            &rt,
            rt.alloc(),
            &given,
            (end, lines, commits, looks),
            number,
        );
    }
}
