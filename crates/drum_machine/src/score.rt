//! What a rehearsal tells, line by line.

ghost use Rattle.std.specs.Prelude.{pos, ◌≡◌, ◌≤◌, ◌<◌, ◌+◌, ◌^◌, ◌++◌, length};
ghost use Rattle.std.specs.Bool.{OnTrue, OnFalse};
ghost use Rattle.arrayvec.specs.ArrayVec.{array_vec_len};
ghost use Rattle.lk_base.specs.Ranges.{IsMoment};
ghost use Rattle.lk_outside.specs.Faults.{Rose};
ghost use Rattle.lk_outside.specs.Sink.{Appends};
ghost use Rattle.lk_outside.specs.Transfer.{AppendsPrefix};
ghost use Rattle.client_state.specs.State.{IsTidyState};
ghost use Rattle.step_sequencer.specs.Pattern.{strokes_at};
ghost use Rattle.step_sequencer.specs.Steps.{struck_from};
ghost use Rattle.drum_machine.specs.Score.{block_text_of, counted_on, done_line_of, place_text_of, step_line_of, steps_text_of, strokes_text_of, tempo_line_of, tempo_text_of, word_where};

use crate::callback::{Drums, FRAMES};
use client_state::State;
use link_lines::{LineBuf, put, put_decimal, put_signed};
use link_shared::Capture;
use lk_outside::{Sink, write_whole};
use step_sequencer::{Hit, Pattern, Strokes, steps_begun};

/// What the rehearsal has told.
#[derive(Drop)]
pub struct Score {
    line: LineBuf,
    // The tempo shown last, 0 before the first.
    mpb: i64,
    steps: u64,
    events: u64,
}

impl Score {
    /// Nothing is told.
    pub fn new() -> Score
        ensures { (result.mpb ≡ pos 0) × (result.steps ≡ 0) × (result.events ≡ 0) }
    {
        Score {
            line: LineBuf::new(),
            mpb: 0,
            steps: 0,
            events: 0,
        }
    }

    /// Tells of a block whether its tempo is another, and the steps that begin. Answers whether the lines were written.
    pub fn tell_block<K: Sink>(
        &mut self,
        capture: &Capture,
        drums: &Drums,
        first: u32,
        events: usize,
        out: &mut K,
    ) -> bool
        requires tidy { IsTidyState capture.now.shown }
        requires origin { IsMoment drums.now.origin }
        requires first { first + 960 < 2 ^ 31 }
        ensures told { OnTrue result (Appends (K.seen out.old).told
            (block_text_of self.old.mpb drums.now.pattern capture.now.shown drums.now.origin first) (K.seen out.new).told) }
        ensures part { OnFalse result (AppendsPrefix (K.seen out.old).told
            (block_text_of self.old.mpb drums.now.pattern capture.now.shown drums.now.origin first) (K.seen out.new).told) }
        ensures tempo { self.new.mpb ≡ capture.now.shown.timeline.mpb }
        ensures steps { OnTrue result (self.new.steps ≡ counted_on self.old.steps (length (struck_from capture.now.shown drums.now.origin first 960))) }
        ensures events { self.new.events ≡ counted_on self.old.events events }
        ensures works { OnTrue result ((K.seen out.new).faults ≡ (K.seen out.old).faults) }
        ensures fails { OnFalse result (Rose (K.seen out.old).faults (K.seen out.new).faults) }
    {
        self.events = self.events.saturating_add(events as u64);
        let hits = steps_begun(&capture.shown, drums.origin, first, FRAMES);
        if !self.tell_tempo(&capture.shown, first, out) {
            return false;
        }
        self.tell_steps(hits.as_slice(), &drums.pattern, out)
    }

    // Tells the tempo from a sample on, where it is another. Answers whether it was written.
    fn tell_tempo<K: Sink>(&mut self, shown: &State, sample: u32, out: &mut K) -> bool
        ensures told { OnTrue result (Appends (K.seen out.old).told (tempo_text_of self.old.mpb shown.now.timeline.mpb sample) (K.seen out.new).told) }
        ensures part { OnFalse result (AppendsPrefix (K.seen out.old).told (tempo_text_of self.old.mpb shown.now.timeline.mpb sample) (K.seen out.new).told) }
        ensures tempo { self.new.mpb ≡ shown.now.timeline.mpb }
        ensures counts { (self.new.steps ≡ self.old.steps) × (self.new.events ≡ self.old.events) }
        ensures works { OnTrue result ((K.seen out.new).faults ≡ (K.seen out.old).faults) }
        ensures fails { OnFalse result (Rose (K.seen out.old).faults (K.seen out.new).faults) }
    {
        let mpb = shown.timeline.mpb;
        if mpb == self.mpb {
            return true;
        }
        self.mpb = mpb;
        put_tempo(&mut self.line, mpb, sample);
        write_whole(out, &self.line)
    }

    // Tells steps. Answers whether their lines were written.
    fn tell_steps<K: Sink>(&mut self, hits: &[Hit], pattern: &Pattern, out: &mut K) -> bool
        ensures told { OnTrue result (Appends (K.seen out.old).told (steps_text_of pattern.now hits.now) (K.seen out.new).told) }
        ensures part { OnFalse result (AppendsPrefix (K.seen out.old).told (steps_text_of pattern.now hits.now) (K.seen out.new).told) }
        ensures steps { self.new.steps ≡ counted_on self.old.steps (length hits.now) }
        ensures stays { (self.new.mpb ≡ self.old.mpb) × (self.new.events ≡ self.old.events) }
        ensures works { OnTrue result ((K.seen out.new).faults ≡ (K.seen out.old).faults) }
        ensures fails { OnFalse result (Rose (K.seen out.old).faults (K.seen out.new).faults) }
    {
        self.steps = self.steps.saturating_add(hits.len() as u64);
        for hit in hits {
            put_step(&mut self.line, hit, pattern);
            if !write_whole(out, &self.line) {
                return false;
            }
        }
        true
    }

    /// Tells how many steps and MIDI events there were. Answers whether the line was written.
    pub fn tell_done<K: Sink>(&mut self, out: &mut K) -> bool
        ensures told { OnTrue result (Appends (K.seen out.old).told (done_line_of self.old.steps self.old.events) (K.seen out.new).told) }
        ensures part { OnFalse result (AppendsPrefix (K.seen out.old).told (done_line_of self.old.steps self.old.events) (K.seen out.new).told) }
        ensures works { OnTrue result ((K.seen out.new).faults ≡ (K.seen out.old).faults) }
        ensures fails { OnFalse result (Rose (K.seen out.old).faults (K.seen out.new).faults) }
    {
        put_done(&mut self.line, self.steps, self.events);
        write_whole(out, &self.line)
    }
}

// Puts the line of a tempo in place of what the buffer held.
#[tactic(auto, unfolding(crate::specs::Score::tempo_line_of))]
fn put_tempo(line: &mut LineBuf, mpb: i64, sample: u32)
    ensures { line.new.items ≡ tempo_line_of mpb sample }
{
    line.clear();
    put(line, b"tempo ");
    put_signed(line, mpb);
    put(line, b" at sample ");
    put_decimal(line, u64::from(sample));
    put(line, b"\n");
}

// Puts the line of a step in place of what the buffer held.
#[tactic(auto, unfolding(crate::specs::Score::step_line_of))]
fn put_step(line: &mut LineBuf, hit: &Hit, pattern: &Pattern)
    ensures { line.new.items ≡ step_line_of hit.now.step hit.now.frame (strokes_at pattern.now hit.now.step) }
{
    line.clear();
    put_place(line, hit.step);
    put(line, b" at sample ");
    put_decimal(line, u64::from(hit.frame));
    put(line, b":");
    put_strokes(line, pattern.strokes(hit.step));
    put(line, b"\n");
}

// Puts the bar of a step and its place there.
#[tactic(auto, unfolding(crate::specs::Score::place_text_of))]
fn put_place(line: &mut LineBuf, step: i64)
    requires { array_vec_len line.old ≤ 1000 }
    ensures items { line.new.items ≡ line.old.items ++ place_text_of step }
    ensures len { array_vec_len line.new ≤ array_vec_len line.old + 52 }
{
    put(line, b"bar ");
    put_signed(line, step.div_euclid(16) + 1);
    put(line, b" step ");
    put_signed(line, step.rem_euclid(16) + 1);
}

// Puts what is struck.
#[tactic(auto, unfolding(crate::specs::Score::strokes_text_of))]
fn put_strokes(line: &mut LineBuf, strokes: Strokes)
    requires { array_vec_len line.old ≤ 1000 }
    ensures items { line.new.items ≡ line.old.items ++ strokes_text_of strokes }
    ensures len { array_vec_len line.new ≤ array_vec_len line.old + 17 }
{
    put_where(line, strokes.kick, b" kick");
    put_where(line, strokes.snare, b" snare");
    put_where(line, strokes.hat, b" hat");
    let is_rest = !strokes.kick && !strokes.snare && !strokes.hat;
    put_where(line, is_rest, b" -");
}

// Puts a word where it is so.
fn put_where(line: &mut LineBuf, is_so: bool, word: &[u8])
    requires { array_vec_len line.old + length word.now ≤ 1200 }
    ensures items { line.new.items ≡ line.old.items ++ word_where is_so word.now }
    ensures len { array_vec_len line.new ≤ array_vec_len line.old + length word.now }
{
    if is_so {
        put(line, word);
    }
}

// Puts how many steps and MIDI events there were, in place of what the buffer held.
#[tactic(auto, unfolding(crate::specs::Score::done_line_of))]
fn put_done(line: &mut LineBuf, steps: u64, events: u64)
    ensures { line.new.items ≡ done_line_of steps events }
{
    line.clear();
    put(line, b"done ");
    put_decimal(line, steps);
    put(line, b" ");
    put_decimal(line, events);
    put(line, b"\n");
}
