//! The clock, the pace and the click over the system's clock, and over one that tells no time or comes back early.

use link_adapters::{ClickAudio, ClockPace, HostClock};
use lk_base::{Click, Clicks, MOMENT_MAX};
use lk_outside::{Audio, Next, Pace, Played};
use std::cell::Cell;
use std::io;
use std::io::{ErrorKind, Write};
use std::sync::Wait;
use std::test::Fail;
use std::time::{Clock, Duration};

/// A clock that shows these microseconds, and goes on by at most 700 of them in a sleep. Below the limit it tells the time.
#[derive(Clone, Copy)]
struct Shown<'a, R: Wait + Copy + Drop> {
    _rt: R,
    micros: &'a Cell<u64>,
    limit: u64,
}

impl<'a, R: Wait + Copy + Drop> Clock for Shown<'a, R> {
    fn monotonic(&self) -> io::Result<Duration> {
        let shown = self.micros.get();
        if shown >= self.limit {
            return Err(io::Error::from(ErrorKind::TimedOut));
        }
        Ok(Duration::from_micros(shown))
    }

    fn since_1970(&self) -> io::Result<Duration> {
        self.monotonic()
    }

    fn sleep(&self, duration: Duration) {
        let micros = u64::try_from(duration.as_micros()).unwrap_or(700).min(700);
        self.micros.set(self.micros.get().saturating_add(micros));
    }
}

impl<'a, R: Wait + Copy + Drop> Wait for Shown<'a, R> {}

/// A writer that fails at each call.
#[derive(Drop)]
struct Broken;

impl Write for Broken {
    fn write(&mut self, _buf: &[u8]) -> io::Result<usize> {
        Err(io::Error::from(ErrorKind::BrokenPipe))
    }

    fn flush(&mut self) -> io::Result<()> {
        Ok(())
    }
}

/// What the system's clock shows where a clock of a run was started at 5, and the moment that it then is.
const MOMENTS: &[(u64, i64)] = &[
    (12, 7),
    // A clock that went back tells the start.
    (4, 0),
    (36_028_797_018_963_972, 36_028_797_018_963_967),
    (36_028_797_018_963_974, 36_028_797_018_963_968),
];

// rule: moment_at
#[test]
fn a_moment_counts_whole_microseconds_up_to_the_last(rt: HostRuntime) -> Result<(), Fail> {
    let micros = Cell::new(5);
    let shown = Shown {
        _rt: rt,
        micros: &micros,
        limit: u64::MAX,
    };
    let clock = HostClock::started(&shown)?;
    assert!(rt; tells_all(&clock, &shown));
    Ok(())
}

fn tells_all<R: Wait + Copy + Drop>(clock: &HostClock, shown: &Shown<R>) -> bool {
    for (at, moment) in MOMENTS {
        shown.micros.set(*at);
        if moment_by(clock, shown) != *moment {
            return false;
        }
    }
    true
}

// The moment that it is by a clock; -1 where it tells no time.
pub fn moment_by<R: Clock>(clock: &HostClock, rt: &R) -> i64 {
    clock.moment(rt).unwrap_or(-1)
}

#[test]
fn the_clock_of_the_run_does_not_go_back(rt: HostRuntime) -> Result<(), Fail> {
    let clock = HostClock::started(&rt)?;
    assert!(rt; never_falls(&clock, &rt));
    Ok(())
}

fn never_falls<R: Clock>(clock: &HostClock, rt: &R) -> bool {
    let mut last = 0;
    for _ in 0..1_000 {
        let now = moment_by(clock, rt);
        if now < last {
            return false;
        }
        last = now;
    }
    true
}

#[test]
fn a_pace_answers_at_its_moment_or_after(rt: HostRuntime) -> Result<(), Fail> {
    let clock = HostClock::started(&rt)?;
    assert!(rt; follows_all(&mut ClockPace::new(rt, clock), &clock, &rt));
    Ok(())
}

fn follows_all<P: Pace, R: Clock>(pace: &mut P, clock: &HostClock, rt: &R) -> bool {
    let mut before = moment_by(clock, rt);
    // A moment that has gone by is answered with the one that it is.
    for asked in [1_500, 3_000, 4_500, 0] {
        let told = pace.until(asked);
        let after = moment_by(clock, rt);
        if told < asked || told < before || after < told {
            return false;
        }
        before = after;
    }
    true
}

#[test]
fn a_sleep_that_ends_early_goes_on(rt: HostRuntime) -> Result<(), Fail> {
    let micros = Cell::new(0);
    let shown = Shown {
        _rt: rt,
        micros: &micros,
        limit: 4_000,
    };
    let clock = HostClock::started(&shown)?;
    // From 4,000 microseconds on it tells no time.
    assert!(rt;
        sleep_by(&clock, &shown, 2_000) == 2_000
            && sleep_by(&clock, &shown, 1_000) == 2_000
            && sleep_by(&clock, &shown, 5_000) == -1
            && ClockPace::new(shown, clock).until(6_000) == 6_000
    );
    Ok(())
}

// The moment after a sleep by a clock; -1 where it tells no time.
fn sleep_by<R: Clock + Wait>(clock: &HostClock, rt: &R, moment: u32) -> i64 {
    clock.sleep_until(rt, i64::from(moment)).unwrap_or(-1)
}

// rule: IsInTurn
#[test]
fn blocks_of_20_milliseconds_follow_on_each_other(rt: HostRuntime) -> Result<(), Fail> {
    let micros = Cell::new(100);
    let shown = Shown {
        _rt: rt,
        micros: &micros,
        limit: 60_000,
    };
    let clock = HostClock::started(&shown)?;
    micros.set(130);
    let mut audio = ClickAudio::new(Broken, shown, clock)?;
    assert!(rt; gives_three(&mut audio, &micros) && matches!(audio.next(), Next::Failed));
    Ok(())
}

// Whether each of three blocks is given, and was waited for.
fn gives_three<A: Audio>(audio: &mut A, micros: &Cell<u64>) -> bool {
    for start in [30u32, 20_030, 40_030] {
        let given = gives_block(audio, i64::from(start));
        if !given || micros.get() != u64::from(start) + 100 {
            return false;
        }
    }
    true
}

// rule: IsInTurn
#[test]
fn no_block_ends_after_the_last_moment(rt: HostRuntime) -> Result<(), Fail> {
    let micros = Cell::new(0);
    let shown = Shown {
        _rt: rt,
        micros: &micros,
        limit: u64::MAX,
    };
    let clock = HostClock::started(&shown)?;
    micros.set(36_028_797_018_963_968 - 39_999);
    let mut audio = ClickAudio::new(Broken, shown, clock)?;
    assert!(rt; gives_the_last(&mut audio));
    Ok(())
}

fn gives_the_last<A: Audio>(audio: &mut A) -> bool {
    gives_block(audio, MOMENT_MAX - 39_999) && closes(audio) && closes(audio)
}

// Whether the next block is the one of 20 milliseconds that begins there.
fn gives_block<A: Audio>(audio: &mut A, start: i64) -> bool {
    match audio.next() {
        Next::Block(block) => block.start == start && block.length == 20_000,
        _ => false,
    }
}

// Whether it ends there.
fn closes<A: Audio>(audio: &mut A) -> bool {
    matches!(audio.next(), Next::Closed)
}

/// Blocks that are played, with the clicks of each and whether they are accents; how long the text is that is told of them, and its end.
const PLAYS: &[(&[&[(i64, bool)]], usize, &[u8])] = &[
    (
        &[&[], &[(0, true), (500_000, false)], &[(-7, false)]],
        49,
        b"click 0 accent\nclick 500000 plain\nclick -7 plain\n",
    ),
    // The longest clicks of a block find room: 18 lines of 34 bytes.
    (
        &[&[(i64::MIN, true); 18]],
        612,
        b"\nclick -9223372036854775808 accent\n",
    ),
];

// rule: click_line_of
#[test]
fn each_click_is_told_in_a_line(rt: HostRuntime) -> Result<(), Fail> {
    let clock = HostClock::started(&rt)?;
    for (blocks, length, end) in PLAYS {
        let mut text = Vec::<u8>::new(rt.alloc());
        let played = plays(&mut ClickAudio::new(&mut text, rt, clock)?, blocks);
        assert!(rt; played && text.len() == *length && text.as_slice().ends_with(end));
    }
    Ok(())
}

#[test]
fn a_click_that_is_not_written_is_a_fault(rt: HostRuntime) -> Result<(), Fail> {
    let clock = HostClock::started(&rt)?;
    let mut audio = ClickAudio::new(Broken, rt, clock)?;
    assert!(rt; !plays(&mut audio, &[&[(1, false)]]));
    Ok(())
}

// Whether a device plays each of these blocks.
fn plays<A: Audio>(audio: &mut A, blocks: &[&[(i64, bool)]]) -> bool {
    for clicks in blocks {
        if audio.play(&clicks_of(clicks)) != Played::Done {
            return false;
        }
    }
    true
}

fn clicks_of(list: &[(i64, bool)]) -> Clicks {
    let mut clicks = Clicks::new();
    for (at, accent) in list {
        let _room = clicks.try_push(Click {
            at: *at,
            accent: *accent,
        });
    }
    clicks
}
