//! The three voices and their sound.

ghost use Rattle.std.specs.Prelude.{◌≡◌, ◌+◌, ◌^◌, ◌<◌, ◌≤◌};
ghost use Rattle.lk_base.specs.Ranges.{IsMoment, IsWithin};
ghost use Rattle.client_state.specs.State.{IsTidyState};
ghost use Rattle.step_sequencer.specs.Steps.{step_in};
ghost use Rattle.step_sequencer.specs.Sound as spec;
ghost use Rattle.step_sequencer.specs.Sound.{silent, next_ages, ages_after, level_of, sounds_from, ages_from};

use crate::pattern::{Pattern, Strokes};
use crate::steps::step_in;
use arrayvec::ArrayVec;
use client_state::State;
use std::marker::Model;

/// How long a voice sounds at most, in frames.
const SILENT: u32 = 4_800;

/// The samples of the frames of one callback.
pub type Samples = ArrayVec<i16, 960>;

/// What a frame gave: the step that begins in it, and its sample.
#[derive(Clone, Copy, Debug, PartialEq, Eq)]
pub struct Sounded {
    pub step: Option<i64>,
    pub sample: i16,
}

/// Three voices, by how many frames ago each was struck: a kick that is a square wave of 80 hertz, a snare and a hat that are noise.
#[derive(Debug, Drop)]
pub struct Kit {
    kick: u32,
    snare: u32,
    hat: u32,
}

impl Model for Kit {
    ghost use Rattle.std.specs.Prelude.{◌≤◌};
    ghost use Rattle.step_sequencer.specs.Sound.{Ages};

    ghost Value = { Ages };

    ghost view = { λ kit. record { kick = kit.kick; snare = kit.snare; hat = kit.hat } };

    ghost invariant = { λ kit. (kit.kick ≤ 4_800) × (kit.snare ≤ 4_800) × (kit.hat ≤ 4_800) };
}

impl Kit {
    /// Silent voices.
    pub fn new() -> Kit
        ensures { result ≡ silent }
    {
        Kit {
            kick: SILENT,
            snare: SILENT,
            hat: SILENT,
        }
    }

    /// The sound of one frame, by the host time at which frame 0 begins: the voices that the pattern has at the step that begins in it
    /// are struck first.
    ///
    /// Waits: never. Memory: none.
    pub fn frame(&mut self, pattern: &Pattern, state: &State, origin: i64, frame: u32) -> Sounded
        requires tidy { IsTidyState state.now }
        requires origin { IsMoment origin }
        requires frame { frame < 2 ^ 31 }
        ensures step { result.step ≡ step_in state.now origin frame }
        ensures ages { self.new ≡ ages_after pattern.now (step_in state.now origin frame) self.old }
        ensures sample { result.sample ≡ level_of self.new }
    {
        let step = step_in(state, origin, frame);
        self.strike(strokes_in(pattern, step));
        Sounded {
            step,
            sample: self.level(),
        }
    }

    /// The sound of so many frames from the first on, at most 960, in place of what `samples` held.
    ///
    /// Waits: never. Memory: none.
    pub fn block(
        &mut self,
        pattern: &Pattern,
        state: &State,
        origin: i64,
        first: u32,
        count: u32,
        samples: &mut Samples,
    )
        requires tidy { IsTidyState state.now }
        requires origin { IsMoment origin }
        requires count { count ≤ 960 }
        requires end { first + count < 2 ^ 31 }
        ensures samples { samples.new.items ≡ sounds_from pattern.now state.now origin self.old first count }
        ensures ages { self.new ≡ ages_from pattern.now state.now origin self.old first count }
    {
        samples.clear();
        for k in 0..count {
            let sounded = self.frame(pattern, state, origin, first + k);
            samples.push(sounded.sample);
        }
    }

    fn strike(&mut self, strokes: Strokes)
        ensures { self.new ≡ next_ages strokes self.old }
    {
        self.kick = next_age(strokes.kick, self.kick);
        self.snare = next_age(strokes.snare, self.snare);
        self.hat = next_age(strokes.hat, self.hat);
    }

    #[tactic(auto, unfolding(crate::specs::Sound::level_of))]
    fn level(&self) -> i16
        ensures { result ≡ level_of self.now }
    {
        (kick_level(self.kick) + snare_level(self.snare) + hat_level(self.hat)) as i16
    }
}

#[tactic(auto, unfolding(crate::specs::Sound::strokes_in))]
fn strokes_in(pattern: &Pattern, step: Option<i64>) -> Strokes
    ensures { result ≡ spec.strokes_in pattern.now step }
{
    match step {
        Some(step) => pattern.strokes(step),
        None => Strokes::default(),
    }
}

#[tactic(auto, unfolding(crate::specs::Sound::next_age))]
fn next_age(struck: bool, age: u32) -> u32
    requires { age ≤ 4_800 }
    ensures value { result ≡ spec.next_age struck age }
    ensures within { result ≤ 4_800 }
{
    if struck { 0 } else { (age + 1).min(SILENT) }
}

#[tactic(auto, unfolding(crate::specs::Sound::kick_level))]
fn kick_level(age: u32) -> i32
    requires { age ≤ 4_800 }
    ensures value { result ≡ spec.kick_level age }
    ensures within { IsWithin 8_000 result }
{
    signed(age / 300 % 2 == 1, (4_800 - age) * 5 / 3)
}

#[tactic(auto, unfolding(crate::specs::Sound::snare_level))]
fn snare_level(age: u32) -> i32
    requires { age ≤ 4_800 }
    ensures value { result ≡ spec.snare_level age }
    ensures within { IsWithin 4_095 result }
{
    signed(
        age % 3 == 1,
        (age * 7_919 + 4_095) % 4_096 * 3_600u32.saturating_sub(age) / 3_600,
    )
}

#[tactic(auto, unfolding(crate::specs::Sound::hat_level))]
fn hat_level(age: u32) -> i32
    requires { age ≤ 4_800 }
    ensures value { result ≡ spec.hat_level age }
    ensures within { IsWithin 2_047 result }
{
    signed(
        age % 2 == 1,
        (age * 5_003 + 2_047) % 2_048 * 1_200u32.saturating_sub(age) / 1_200,
    )
}

fn signed(negative: bool, magnitude: u32) -> i32
    requires { magnitude ≤ 8_000 }
    ensures value { result ≡ spec.signed negative magnitude }
    ensures within { IsWithin magnitude result }
{
    if negative {
        -(magnitude as i32)
    } else {
        magnitude as i32
    }
}
