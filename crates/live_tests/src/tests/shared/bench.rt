//! A link whose node has one gate, with two applications.
ghost use Rattle.std.specs.Prelude.{◌≡◌, ◌≤◌, ◌<◌, ◌+◌, length};
ghost use Rattle.link_shared.specs.Hub.{IsOnGate};
ghost use Rattle.link_live.specs.NodeRun.{ArePartsOf};

use super::{OPENING, endpoint};
use audio_handoff::StateCell;
use link_node::Sends;
use link_shared::{AppPass, AudioPass, Ended, Got, Hub, Link, LinkName, Opened, Parts, Turned};
use lk_base::{Gate, Wire};
use std::alloc::Global;
use std::process::Abort;
use std::sync::Wait;

/// A hub, and what its last turn sends.
#[derive(Drop)]
pub struct Network<C: StateCell<11>, N: LinkName> {
    pub hub: Hub<C, N>,
    pub sends: Sends,
    ghost gate: { length hub.config.gates ≡ 1 },
}

impl<C: StateCell<11>, N: LinkName> Network<C, N> {
    /// A turn, so many microseconds after the opening.
    pub fn turn<R: Wait>(
        &mut self,
        rt: &R,
        link: &Link<C, N>,
        way: &C::Way,
        after: u32,
        got: Got,
    ) -> Turned
        requires { IsOnGate 1 got }
    {
        let Network { hub, sends } = self;
        hub.turn(rt, link, way, OPENING + i64::from(after), got, sends)
    }
}

/// A datagram of one byte, which means nothing.
pub fn datagram() -> Got
    ensures { IsOnGate 1 result }
{
    let mut bytes = Wire::new();
    let _room = bytes.try_push(0);
    Got::Datagram {
        gate: Gate(0),
        from: endpoint(9),
        bytes,
    }
}

/// A link, and what each thread has of it.
#[derive(Drop)]
pub struct Bench<C: StateCell<11>, N: LinkName> {
    pub link: Link<C, N>,
    pub network: Network<C, N>,
    pub audio: AudioPass<C, N>,
    pub first: AppPass<C, N>,
    pub second: AppPass<C, N>,
}

impl<C: StateCell<11>, N: LinkName> Bench<C, N> {
    /// The second pass is made by the first.
    pub fn open<R: Wait + Abort>(
        rt: &R,
        alloc: Global,
        way: &C::Way,
        parts: Parts<C>,
        sends: Sends,
    ) -> Bench<C, N>
        requires link { ArePartsOf N.app_states N.audio_states N.audio_commits N.queue N.name N.parts N.whole parts }
        requires gate { length parts.config.gates ≡ 1 }
    {
        let mut opened = Link::<C, N>::make(parts);
        let Opened { link, app, .. } = &mut opened;
        let second = link.app_pass(rt, alloc, way, app);
        let second = second.expect(rt, "memory for a pass");
        let Opened {
            link,
            hub,
            audio,
            app: first,
        } = opened;
        Bench {
            link,
            network: Network { hub, sends },
            audio,
            first,
            second,
        }
    }

    /// The last turn, so many microseconds after the opening, with so many of the two passes handed in. Answers how many datagrams it
    /// sends, too.
    pub fn end<R: Wait + Abort>(
        self,
        rt: &R,
        way: &C::Way,
        after: u32,
        passes: u8,
    ) -> (Ended, usize) {
        let Bench {
            link,
            network,
            audio,
            first,
            second,
        } = self;
        let Network { mut hub, mut sends } = network;
        assert!(rt; hub.handed() == 0);
        hand_in(&mut hub, first, passes > 0);
        hand_in(&mut hub, second, passes > 1);
        let now = OPENING + i64::from(after);
        let ended = hub.last_turn(rt, link, way, audio, now, &mut sends);
        (ended, sends.list().len())
    }
}

// Hands in a pass, or leaves it.
fn hand_in<C: StateCell<11>, N: LinkName>(hub: &mut Hub<C, N>, pass: AppPass<C, N>, goes_in: bool)
    requires { length hub.old.handed < 16 }
    ensures { length hub.new.handed ≤ length hub.old.handed + 1 }
{
    if goes_in {
        hub.hand_in(pass);
    }
}
