//! The drum machine's side of a run: its audio thread.

ghost use Rattle.drum_machine.specs.Player.{CanPlay, HasDrummed};

use crate::callback::Drums;
use crate::player::{PlayEnd, play};
use crate::rig::Outlet;
use link_live::{AudioPass, AudioSide, Link, LinkName, Triple};
use lk_outside::{Audio, Sink};

/// The audio thread, which plays so many blocks.
#[derive(Drop)]
pub struct Drummer {
    pub drums: Drums,
    pub blocks: u32,
}

impl<A: Audio, W: Sink, M: Sink, R> AudioSide<R, Outlet<A, W, M>> for Drummer {
    type End = PlayEnd;

    ghost starts = { λ side pass outlet. CanPlay pass side.drums.origin side.blocks };

    ghost runs = { λ side side_then pass pass_then outlet outlet_then end.
        HasDrummed side.blocks side.drums pass pass_then (A.seen outlet.audio) (A.seen outlet_then.audio)
        (W.seen outlet.sound) (W.seen outlet_then.sound) (M.seen outlet.midi) (M.seen outlet_then.midi) end };

    fn run<N: LinkName>(
        &mut self,
        _rt: &R,
        link: &Link<Triple<11>, N>,
        pass: &mut AudioPass<Triple<11>, N>,
        outlet: &mut Outlet<A, W, M>,
    ) -> PlayEnd {
        let Outlet { audio, sound, midi } = outlet;
        let Drummer { drums, blocks } = self;
        play(link, pass, drums, *blocks, audio, sound, midi)
    }
}
