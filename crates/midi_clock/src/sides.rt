//! The MIDI clock's side of a run: its audio thread.

ghost use Rattle.std.specs.Prelude.{◌≡◌, []};
ghost use Rattle.midi_clock.specs.Player.{CanPlay, HasClocked};
ghost use Rattle.midi_clock.specs.Sent.{counts_of};

use crate::player::{PlayEnd, play};
use crate::rig::Outlet;
use crate::sending::Tally;
use link_live::{AudioPass, AudioSide, Link, LinkName, Triple};
use lk_outside::{Pace, Sink};

/// The audio thread, which plays so many blocks from a time on, and what it has sent.
#[derive(Drop)]
pub struct Clockwork {
    pub origin: i64,
    pub blocks: u32,
    pub tally: Tally,
}

impl<T: Pace, M: Sink, R: Eprint> AudioSide<R, Outlet<T, M>> for Clockwork {
    type End = PlayEnd;

    ghost starts = { λ side pass outlet. CanPlay side.origin side.blocks × (side.tally.counts ≡ counts_of []) };

    ghost runs = { λ side side_then pass pass_then outlet outlet_then end.
        HasClocked side.blocks side.origin pass pass_then (M.seen outlet.midi) (M.seen outlet_then.midi) side_then.tally.counts end };

    fn run<N: LinkName>(
        &mut self,
        rt: &R,
        link: &Link<Triple<11>, N>,
        pass: &mut AudioPass<Triple<11>, N>,
        outlet: &mut Outlet<T, M>,
    ) -> PlayEnd {
        let Outlet { pace, midi } = outlet;
        let Clockwork {
            origin,
            blocks,
            tally,
        } = self;
        play(rt, link, pass, *origin, *blocks, pace, midi, tally)
    }
}
