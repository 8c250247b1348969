//! The sessions that are known, step by step: which timeline counts, which session wins, and the order of the others.

ghost use Rattle.lk_base.specs.Timeline.{IsTidy};

use crate::tests::expect;
use ghost_xform::XForm;
use lk_base::{LIMIT, NodeId, Timeline};
use session_choice::{Current, Saw, Sessions, Verdict};
use std::alloc::{AllocError, Global};
use std::process::Abort;
use std::test::Fail;

// The current session of each test, at the start.
const CURRENT: NodeId = NodeId(*b"MMMMMMMM");

const HELD: XForm = XForm { offset: -7 };

// An id of one byte eight times.
fn id(byte: u8) -> NodeId {
    NodeId([byte; 8])
}

// A timeline of 120 beats a minute with this beat origin.
fn at(beat: i64) -> Timeline
    ensures { IsTidy result }
{
    Timeline {
        mpb: 500_000,
        beat: beat.clamp(-LIMIT, LIMIT),
        time: 3,
    }
}

// The current session alone, with the origin 0.
fn alone(alloc: Global) -> Result<Sessions, AllocError> {
    Sessions::new(alloc, CURRENT, at(0), HELD)
}

// Another session, the current one's offset, by how much the other's is greater, the moment, and whether it is joined.
const LEADS: &[([u8; 8], i64, i64, i64, bool)] = &[
    (*b"AAAAAAAA", -7, 500_001, 1_000_000, true),
    (*b"ZZZZZZZZ", -7, 500_001, 1_000_000, true),
    (*b"AAAAAAAA", -7, 500_000, 1_000_000, false),
    (*b"ZZZZZZZZ", -7, 500_000, 1_000_000, false),
    (*b"AAAAAAAA", -7, 499_999, 1_000_000, true),
    (*b"ZZZZZZZZ", -7, 499_999, 1_000_000, false),
    (*b"AAAAAAAA", -7, 0, 1_000_000, true),
    (*b"ZZZZZZZZ", -7, 0, 1_000_000, false),
    (*b"AAAAAAAA", -7, -1, 1_000_000, true),
    (*b"AAAAAAAA", -7, -499_999, 1_000_000, true),
    (*b"ZZZZZZZZ", -7, -499_999, 1_000_000, false),
    (*b"AAAAAAAA", -7, -500_000, 1_000_000, false),
    (*b"ZZZZZZZZ", -7, -500_000, 1_000_000, false),
    (*b"AAAAAAAA", -7, -500_001, 1_000_000, false),
    (*b"AAAAAAAA", -7, -86_400_000_000, 1_000_000, false),
    (*b"ZZZZZZZZ", -7, 86_400_000_000, 1_000_000, true),
    // The first byte that differs decides, and bytes have no sign.
    (*b"MMMMMMML", -7, 0, 1_000_000, true),
    (*b"MMMMMMMN", -7, 0, 1_000_000, false),
    (*b"LZZZZZZZ", -7, 0, 1_000_000, true),
    (*b"NAAAAAAA", -7, 0, 1_000_000, false),
    ([200; 8], -7, 0, 1_000_000, false),
    ([0; 8], -7, 0, 1_000_000, true),
    // Ghost times are clipped before they are compared.
    (*b"ZZZZZZZZ", LIMIT, 1_000_000, 0, false),
    (*b"AAAAAAAA", LIMIT, 1_000_000, 0, true),
    (*b"ZZZZZZZZ", LIMIT - 500_000, 1_500_000, 0, false),
    (*b"AAAAAAAA", LIMIT - 500_000, 1_500_000, 0, false),
    (*b"ZZZZZZZZ", LIMIT - 500_001, 1_500_001, 0, true),
    (*b"AAAAAAAA", -LIMIT, -1_000_000, 0, true),
    (
        *b"AAAAAAAA",
        i64::MAX - 1_000_000,
        1_000_000,
        i64::MAX,
        true,
    ),
    (
        *b"ZZZZZZZZ",
        i64::MAX - 1_000_000,
        1_000_000,
        i64::MAX,
        false,
    ),
    // From the greatest offset to the least, and back.
    (*b"AAAAAAAA", i64::MAX, 1, 0, false),
    (*b"ZZZZZZZZ", i64::MIN, -1, 0, true),
    (*b"ZZZZZZZZ", i64::MIN, -1, i64::MIN, true),
];

// Another session is joined, or the current one stays, by this lead. Both stay known.
fn expect_led(
    rt: &impl Abort,
    sessions: &mut Sessions,
    &(other, held, lead, now, joins): &([u8; 8], i64, i64, i64, bool),
) {
    let session = NodeId(other);
    let offset = held.wrapping_add(lead);
    sessions.reset(CURRENT, at(5), XForm { offset: held });
    sessions.saw(session, at(2));
    let verdict = sessions.measured(session, XForm { offset }, now);
    let wanted = if joins {
        (Verdict::Joined, session, at(2), offset)
    } else {
        (Verdict::Stayed, CURRENT, at(5), held)
    };
    let current = sessions.current();
    let found = (
        verdict,
        current.session,
        current.timeline,
        current.xform.offset,
    );
    expect(rt, &(session, lead), &found, &wanted);
    let known = (
        sessions.timeline_of(CURRENT),
        sessions.timeline_of(session),
        sessions.other_count(),
    );
    expect(rt, &(session, lead), &known, &(Some(at(5)), Some(at(2)), 1));
}

// rule: bytes_lt, Wins, joined, measured_of, measured
#[test]
fn a_session_wins_by_its_lead_or_by_its_id(rt: HostRuntime) -> Result<(), Fail> {
    let mut sessions = alone(rt.alloc())?;
    for row in LEADS {
        expect_led(&rt, &mut sessions, row);
    }
    Ok(())
}

// What is done, and what is answered. An id is told by its byte, and a timeline by its beat origin.
#[derive(Clone, Copy)]
enum Step {
    // The first current session alone, and then others of the origins 1, 2 and so on.
    With(&'static [u8]),
    // It alone, and then 64 others from 100 on.
    Crowd,
    // A session alone, with its origin and its offset.
    Reset(u8, i64, i64),
    Saw(u8, i64, Saw),
    // An offset at the moment 5.
    Measured(u8, i64, Verdict),
    Forget(u8, bool),
    // The current session, its origin and its offset.
    Current(u8, i64, i64),
    Counts(u8, Option<i64>),
    // How many others, the one at a place, and all in their order.
    Others(usize),
    Other(usize, u8),
    Order(&'static [u8]),
}

use Step::{Counts, Crowd, Forget, Measured, Order, Other, Others, Reset, With};

// The current session, and others of these bytes.
fn begin(sessions: &mut Sessions, bytes: &[u8]) {
    sessions.reset(CURRENT, at(0), HELD);
    let mut beat = 0i64;
    for byte in bytes {
        beat = beat.wrapping_add(1);
        sessions.saw(id(*byte), at(beat));
    }
}

fn crowd(rt: &impl Abort, sessions: &mut Sessions) {
    sessions.reset(CURRENT, at(0), HELD);
    for byte in 100u8..164 {
        expect(rt, &byte, &sessions.saw(id(byte), at(1)), &Saw::New);
    }
}

// The first byte of the other session at a place.
fn other(sessions: &Sessions, k: usize) -> Option<u8> {
    if k < sessions.other_count() {
        return Some(sessions.other(k).0[0]);
    }
    None
}

fn are_others(sessions: &Sessions, wanted: &[u8]) -> bool {
    for (k, byte) in wanted.iter().enumerate() {
        if other(sessions, k) != Some(*byte) {
            return false;
        }
    }
    sessions.other_count() == wanted.len()
}

fn take(rt: &impl Abort, sessions: &mut Sessions, k: usize, step: &Step) {
    match *step {
        With(bytes) => begin(sessions, bytes),
        Crowd => crowd(rt, sessions),
        Reset(byte, beat, offset) => sessions.reset(id(byte), at(beat), XForm { offset }),
        Step::Saw(byte, beat, answer) => {
            expect(rt, &k, &sessions.saw(id(byte), at(beat)), &answer);
        }
        Measured(byte, offset, verdict) => {
            let found = sessions.measured(id(byte), XForm { offset }, 5);
            expect(rt, &k, &found, &verdict);
        }
        Forget(byte, had) => expect(rt, &k, &sessions.forget(id(byte)), &had),
        _ => check(rt, sessions, k, step),
    }
}

// A step that changes nothing.
fn check(rt: &impl Abort, sessions: &Sessions, k: usize, step: &Step) {
    match *step {
        Step::Current(byte, beat, offset) => {
            let current = Current {
                session: id(byte),
                timeline: at(beat),
                xform: XForm { offset },
            };
            expect(rt, &k, &sessions.current(), &current);
        }
        Counts(byte, beat) => {
            expect(rt, &k, &sessions.timeline_of(id(byte)), &beat.map(at));
        }
        Others(count) => expect(rt, &k, &sessions.other_count(), &count),
        Other(place, byte) => expect(rt, &k, &other(sessions, place), &Some(byte)),
        Order(wanted) => expect(rt, &k, &are_others(sessions, wanted), &true),
        _ => expect(rt, &k, &"known", &"unknown"),
    }
}

fn play(rt: &impl Abort, alloc: Global, steps: &[Step]) -> Result<(), AllocError> {
    let mut sessions = alone(alloc)?;
    for (k, step) in steps.iter().enumerate() {
        take(rt, &mut sessions, k, step);
    }
    Ok(())
}

const MEASURED: &[Step] = &[
    With(b"AB"),
    Measured(b'C', -900_000_000, Verdict::Unknown),
    Step::Current(b'M', 0, -7),
    Measured(b'M', -900_000_000, Verdict::Remeasured),
    Step::Current(b'M', 0, -900_000_000),
    // By the last offset of the current session the other one leads.
    Measured(b'B', -899_500_000, Verdict::Stayed),
    Step::Current(b'M', 0, -900_000_000),
    Measured(b'B', -899_499_999, Verdict::Joined),
    Step::Current(b'B', 2, -899_499_999),
    Order(b"AM"),
];

// rule: joined, measured_of
#[test]
fn the_current_session_is_remeasured_and_a_stranger_unknown(rt: HostRuntime) -> Result<(), Fail> {
    play(&rt, rt.alloc(), MEASURED)?;
    Ok(())
}

// Of a full table one is joined and one forgotten. The old session stands where the joined one stood: the 31st, less the one that was
// forgotten.
const ROOM: &[Step] = &[
    Crowd,
    // A full table still takes the timelines of those that are known.
    Step::Saw(164, 9, Saw::Full),
    Step::Saw(163, 2, Saw::Taken),
    Step::Saw(100, 1, Saw::Kept),
    Step::Saw(b'M', 1, Saw::Taken),
    Counts(164, None),
    Others(64),
    Measured(130, 900_000, Verdict::Joined),
    Step::Saw(164, 9, Saw::Full),
    Forget(100, true),
    Step::Saw(165, 9, Saw::New),
    Step::Saw(166, 9, Saw::Full),
    Others(64),
    Other(0, 101),
    Other(28, 129),
    Other(29, b'M'),
    Other(30, 131),
    Other(62, 163),
    Other(63, 165),
];

// rule: best_of, saw_known, saw_of
#[test]
fn sixty_four_others_are_known_and_no_more(rt: HostRuntime) -> Result<(), Fail> {
    play(&rt, rt.alloc(), ROOM)?;
    Ok(())
}

const FORGOTTEN: &[Step] = &[
    With(b"ABCD"),
    Forget(b'A', true),
    Order(b"BCD"),
    Step::Saw(b'A', -9, Saw::New),
    Order(b"BCDA"),
    With(b"ABCD"),
    Forget(b'B', true),
    Order(b"ACD"),
    Step::Saw(b'B', -9, Saw::New),
    Order(b"ACDB"),
    With(b"ABCD"),
    Forget(b'C', true),
    Order(b"ABD"),
    Step::Saw(b'C', -9, Saw::New),
    Order(b"ABDC"),
    With(b"ABCD"),
    Forget(b'D', true),
    Order(b"ABC"),
    Step::Saw(b'D', -9, Saw::New),
    Order(b"ABCD"),
    With(b"ABCD"),
    Forget(b'E', false),
    Order(b"ABCD"),
    Step::Saw(b'E', -9, Saw::New),
    Order(b"ABCDE"),
    With(b"ABCD"),
    Forget(b'M', false),
    Order(b"ABCD"),
    Step::Saw(b'M', -9, Saw::Kept),
    Order(b"ABCD"),
];

// rule: saw_of, forgotten
#[test]
fn the_place_of_a_forgotten_session_is_closed(rt: HostRuntime) -> Result<(), Fail> {
    play(&rt, rt.alloc(), FORGOTTEN)?;
    Ok(())
}

// The old session is joined again by its lead, at the offset that is told then.
const EXCHANGED: &[Step] = &[
    With(b"ABC"),
    Measured(b'A', 600_000, Verdict::Joined),
    Order(b"MBC"),
    Measured(b'M', 1_100_001, Verdict::Joined),
    Order(b"ABC"),
    Step::Current(b'M', 0, 1_100_001),
    With(b"ABC"),
    Measured(b'B', 600_000, Verdict::Joined),
    Order(b"AMC"),
    Measured(b'M', 1_100_001, Verdict::Joined),
    Order(b"ABC"),
    Step::Current(b'M', 0, 1_100_001),
    With(b"ABC"),
    Measured(b'C', 600_000, Verdict::Joined),
    Order(b"ABM"),
    Measured(b'M', 1_100_001, Verdict::Joined),
    Order(b"ABC"),
    Step::Current(b'M', 0, 1_100_001),
];

// rule: joined
#[test]
fn the_old_session_takes_the_place_of_the_joined_one(rt: HostRuntime) -> Result<(), Fail> {
    play(&rt, rt.alloc(), EXCHANGED)?;
    Ok(())
}

const RESET: &[Step] = &[
    With(b"AB"),
    Reset(b'B', -3, 1),
    Step::Current(b'B', -3, 1),
    Others(0),
    Counts(b'M', None),
    Step::Saw(b'M', 7, Saw::New),
    Counts(b'A', None),
    Step::Saw(b'A', 7, Saw::New),
    Counts(b'B', Some(-3)),
    Step::Saw(b'B', 7, Saw::Taken),
];

#[test]
fn a_reset_leaves_one_session(rt: HostRuntime) -> Result<(), Fail> {
    play(&rt, rt.alloc(), RESET)?;
    Ok(())
}
