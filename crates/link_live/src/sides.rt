//! The sides of a live run: its audio thread, and an application that takes its commands from a script.

ghost use Rattle.std.specs.Prelude.{◌≡◌, map, not};
ghost use Rattle.link_live.specs.Loops.{CanPlay, CanTake, HasPlayedBlocks, HasTakenCommands};

use crate::audio::{AudioReport, audio_loop};
use crate::script::{ScriptReport, script_loop};
use crate::side::{AppSide, AudioSide};
use link_script::LiveScript;
use link_shared::{AppPass, AudioPass, Link, LinkName};
use lk_outside::{Audio, Pace};
use std::alloc::Global;
use std::sync::Wait;
use triple_buffer::Triple;

/// The audio thread, which plays at most so many blocks.
#[derive(Drop)]
pub(crate) struct Player<'a> {
    pub(crate) script: &'a LiveScript,
    pub(crate) blocks: u64,
    pub(crate) report: AudioReport,
}

impl<'a, A: Audio, R> AudioSide<R, A> for Player<'a> {
    /// Whether no call of the device failed.
    type End = bool;

    ghost starts = { λ side pass audio. CanPlay side.blocks side.script.now.blocks.items pass side.report };

    ghost runs = { λ side side_then pass pass_then audio audio_then ended.
        HasPlayedBlocks side.blocks side.script.now.blocks.items pass pass_then (A.seen audio) (A.seen audio_then)
        side_then.report ended };

    fn run<N: LinkName>(
        &mut self,
        _rt: &R,
        link: &Link<Triple<11>, N>,
        pass: &mut AudioPass<Triple<11>, N>,
        audio: &mut A,
    ) -> bool {
        audio_loop(
            link,
            pass,
            audio,
            self.script,
            self.blocks,
            &mut self.report,
        )
    }
}

/// The application.
#[derive(Drop)]
pub(crate) struct Script<'a> {
    pub(crate) alloc: Global,
    pub(crate) script: &'a LiveScript,
    pub(crate) report: ScriptReport,
}

impl<'a, T: Pace, R: Wait> AppSide<R, T, ()> for Script<'a> {
    /// Whether memory was wanting for no capture.
    type End = bool;

    ghost starts = { λ side pass pace none. CanTake side.script.now.apps.items pass side.report };

    ghost runs = { λ side side_then pass pass_then pace pace_then none none_then all.
        HasTakenCommands (T.late pace) side.script.now.apps.items pass_then side_then.report all };

    fn run<N: LinkName>(
        &mut self,
        rt: &R,
        link: &Link<Triple<11>, N>,
        pass: &mut AppPass<Triple<11>, N>,
        pace: &mut T,
        _none: &mut (),
    ) -> bool {
        script_loop(
            rt,
            self.alloc,
            link,
            &(),
            pass,
            pace,
            self.script,
            &mut self.report,
        )
    }
}
