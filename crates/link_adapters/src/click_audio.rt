//! An audio device that writes its clicks as text.

ghost use Rattle.std.specs.Prelude.{◌≡◌, ◌≤◌, ◌+◌, ◌*◌, ◌^◌, ◌++◌, pos, ◌+ℤ◌, ◌≤ℤ◌, [], length, None, IfOk};
ghost use Rattle.std.specs.Int.{int_min};
ghost use Rattle.arrayvec.specs.ArrayVec.{array_vec_len};
ghost use Rattle.lk_base.specs.Ranges.{IsMoment};
ghost use Rattle.lk_outside.specs.Audio.{IsNext, GivesNext, HasNextCause, Plays, HasPlayCause};
ghost use Rattle.link_adapters.specs.Adapters.{IsInTurn, IsPlayedTo, click_line_of, click_lines_of};

use crate::host_clock::HostClock;
use arrayvec::ArrayVec;
use itoa::Buffer;
use lk_base::{Block, Click, Clicks, MOMENT_MAX};
use lk_outside::{Audio, Next, Played};
use std::io;
use std::io::Write;
use std::sync::Wait;
use std::time::Clock;

/// How long a block is, in microseconds.
const BLOCK_LENGTH: i64 = 20_000;

/// The lines of the clicks of a block.
type Lines = ArrayVec<u8, 1200>;

/// An audio device whose blocks of 20 milliseconds follow on each other, from the moment at which it was made, or `later`. It tells of each
/// click in a line: `click`, its host time in microseconds, and `accent` or `plain`.
#[derive(Drop)]
pub struct ClickAudio<W: Write + Drop, R: Clock + Wait + Drop> {
    inner: W,
    rt: R,
    clock: HostClock,
    // Where the next block begins, in microseconds.
    start: i64,
    faults: u64,
    ghost begins: { IsMoment start },
}

impl<W: Write + Drop, R: Clock + Wait + Drop> ClickAudio<W, R> {
    /// A device that writes to `inner` and begins now, by this clock, which `rt` reads. The error is the system's, where it tells no time.
    pub fn new(inner: W, rt: R, clock: HostClock) -> io::Result<Self>
        ensures inner { IfOk result (λ device. device.inner ≡ inner) }
        ensures faultless { IfOk result (λ device. device.faults ≡ 0) }
        ensures clock { IfOk result (λ device. device.clock ≡ clock) }
    {
        let start = clock.moment(&rt)?;
        Ok(ClickAudio {
            inner,
            rt,
            clock,
            start,
            faults: 0,
        })
    }

    /// The same device, which begins `wait` microseconds later, at most a second, and at the last moment at the latest.
    pub fn later(mut self, wait: i64) -> Self
        requires { (pos 0 ≤ℤ wait) × (wait ≤ℤ pos 1_000_000) }
        ensures start { result.start ≡ int_min (self.start +ℤ wait) (pos (2 ^ 55)) }
        ensures stays { (result.inner ≡ self.inner) × (result.faults ≡ self.faults) × (result.clock ≡ self.clock) }
    {
        self.start = (self.start + wait).min(MOMENT_MAX);
        self
    }
}

impl<W: Write + Drop, R: Clock + Wait + Drop> Audio for ClickAudio<W, R> {
    ghost seen = { λ device. record { told = None; faults = device.faults } };

    // Waits: for the moment at which the block begins. Memory: none.
    fn next(&mut self) -> Next
        ensures answer { IsNext result }
        ensures contents { GivesNext None None result }
        ensures cause { HasNextCause self.old.faults self.new.faults result }

        // The blocks follow on each other, while one ends at a moment.
        ensures block { IsInTurn self.old.start self.new.start result }
    {
        if self.start > MOMENT_MAX - BLOCK_LENGTH {
            return Next::Closed;
        }
        match self.clock.sleep_until(&self.rt, self.start) {
            Ok(_) => {
                let start = self.start;
                self.start += BLOCK_LENGTH;
                Next::Block(Block {
                    start,
                    length: BLOCK_LENGTH,
                })
            }
            Err(_) => {
                self.faults = self.faults.saturating_add(1);
                Next::Failed
            }
        }
    }

    // Waits: for the writer. Memory: none.
    fn play(&mut self, clicks: &Clicks) -> Played
        ensures contents { Plays None None clicks.now.items result }
        ensures cause { HasPlayCause self.old.faults self.new.faults result }

        // Of the writer itself, where its bytes are known.
        ensures inner { IsPlayedTo (W.contents self.old.inner) (W.contents self.new.inner) clicks.now.items result }
        ensures start { self.new.start ≡ self.old.start }
    {
        let mut lines = Lines::new();
        put_clicks(&mut lines, clicks);
        match self.inner.write_all(&lines) {
            Ok(()) => Played::Done,
            Err(_) => {
                self.faults = self.faults.saturating_add(1);
                Played::Failed
            }
        }
    }
}

// Appends the lines of some clicks.
fn put_clicks(lines: &mut Lines, clicks: &Clicks)
    requires { lines.old.items ≡ [] }
    ensures { lines.new.items ≡ click_lines_of clicks.now.items }
{
    let mut at = 0;
    while at < clicks.len() {
        put_click(lines, clicks[at]);
        at += 1;
    }
}

// Appends the line of a click.
#[tactic(auto, unfolding(crate::specs::Adapters::click_line_of))]
fn put_click(lines: &mut Lines, click: Click)
    requires { array_vec_len lines.old + 35 ≤ 1_200 }
    ensures items { lines.new.items ≡ lines.old.items ++ click_line_of click }
    ensures len { array_vec_len lines.new ≤ array_vec_len lines.old + 35 }
{
    put(lines, b"click ");
    put(lines, Buffer::new().format(click.at).as_bytes());
    if click.accent {
        put(lines, b" accent\n");
    } else {
        put(lines, b" plain\n");
    }
}

// Appends bytes for which there is room.
fn put(lines: &mut Lines, bytes: &[u8])
    requires { array_vec_len lines.old + length bytes.now ≤ 1_200 }
    ensures items { lines.new.items ≡ lines.old.items ++ bytes.now }
    ensures len { array_vec_len lines.new ≡ array_vec_len lines.old + length bytes.now }
{
    let _appended = lines.try_extend_from_slice(bytes);
}
