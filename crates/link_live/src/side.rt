//! What runs beside the network's loop over one link.
//!
//! What joins threads knows each side by a trait alone: the hub and the passes are of types that are generic in their cell, and closures
//! that hold those and the runtime's handle can't be joined.

ghost use Rattle.std.specs.Prelude.{◌≡◌, Bool};
ghost use Rattle.std.specs.Thread.{IsSend, IsSync};
ghost use Rattle.link_live.specs.declared.network.NetEnd.{NetEnd as AnyEnd};
ghost use Rattle.link_shared.specs.Audio.{AudioView};
ghost use Rattle.link_shared.specs.Passes.{AppView};

use crate::handing::ask_to_end;
use crate::network::{NetEnd, network_loop};
use link_node::Sends;
use link_shared::{AppPass, AudioPass, Hub, Link, LinkName};
use lk_outside::Port;
use std::sync::Wait;
use std::thread;
use std::thread::Threads;
use triple_buffer::Triple;

/// What runs on the audio thread beside the network's loop: it is lent the audio thread's pass of the link, and a device, `()` where there
/// is none. Lists that it fills are its own.
pub trait AudioSide<R, D> {
    /// How it ended.
    type End: Send;

    /// What it owes, and what it promises.
    ghost starts: { Self → AudioView → D → Type 0 };

    ghost runs: { Self → Self → AudioView → AudioView → D → D → Self.End → Type 0 };

    /// Runs to its end.
    fn run<N: LinkName>(
        &mut self,
        rt: &R,
        link: &Link<Triple<11>, N>,
        pass: &mut AudioPass<Triple<11>, N>,
        device: &mut D,
    ) -> Self::End
        requires { starts self.old pass.old device.old }
        ensures { runs self.old self.new pass.old pass.new device.old device.new result };
}

/// What runs on an application's thread beside the network's loop: it is lent the application's pass of the link, and at most two devices,
/// `()` where there is none. Lists that it fills are its own.
pub trait AppSide<R, E, F> {
    /// How it ended.
    type End: Send;

    /// What it owes, and what it promises.
    ghost starts: { Self → AppView → E → F → Type 0 };

    ghost runs: { Self → Self → AppView → AppView → E → E → F → F → Self.End → Type 0 };

    /// Runs to its end.
    fn run<N: LinkName>(
        &mut self,
        rt: &R,
        link: &Link<Triple<11>, N>,
        pass: &mut AppPass<Triple<11>, N>,
        first: &mut E,
        second: &mut F,
    ) -> Self::End
        requires { starts self.old pass.old first.old second.old }
        ensures { runs self.old self.new pass.old pass.new first.old first.new second.old second.new result };
}

/// A side that does nothing, for a program that has no such thread.
#[derive(Clone, Copy, Debug, PartialEq, Eq)]
pub struct Idle;

impl<R, D> AudioSide<R, D> for Idle {
    type End = ();

    ghost starts = { λ side pass device. Unit {0} };

    ghost runs = { λ side side_then pass pass_then device device_then end. pass_then ≡ pass };

    fn run<N: LinkName>(
        &mut self,
        _rt: &R,
        _link: &Link<Triple<11>, N>,
        _pass: &mut AudioPass<Triple<11>, N>,
        _device: &mut D,
    ) {}
}

impl<R, E, F> AppSide<R, E, F> for Idle {
    type End = ();

    ghost starts = { λ side pass first second. Unit {0} };

    ghost runs = { λ side side_then pass pass_then first first_then second second_then end. pass_then ≡ pass };

    fn run<N: LinkName>(
        &mut self,
        _rt: &R,
        _link: &Link<Triple<11>, N>,
        _pass: &mut AppPass<Triple<11>, N>,
        _first: &mut E,
        _second: &mut F,
    ) {}
}

/// Either side of one link, as what joins threads knows it.
pub(crate) trait Side<R, L, U, D, E> {
    type End: Send;

    ghost starts: { Self → U → D → E → Type 0 };

    ghost runs: { Self → Self → U → U → D → D → E → E → Self.End → Type 0 };

    fn go(&mut self, rt: &R, link: &L, pass: &mut U, first: &mut D, second: &mut E) -> Self::End
        requires { starts self.old pass.old first.old second.old }
        ensures { runs self.old self.new pass.old pass.new first.old first.new second.old second.new result };
}

impl<S: AudioSide<R, D>, N: LinkName, R, D> Side<
    R,
    Link<Triple<11>, N>,
    AudioPass<Triple<11>, N>,
    D,
    (),
> for S {
    type End = S::End;

    ghost starts = { λ side pass device none. S.starts side pass device };

    ghost runs = { λ side side_then pass pass_then device device_then none none_then end. S.runs side side_then pass pass_then device device_then end };

    fn go(
        &mut self,
        rt: &R,
        link: &Link<Triple<11>, N>,
        pass: &mut AudioPass<Triple<11>, N>,
        device: &mut D,
        _none: &mut (),
    ) -> S::End {
        self.run(rt, link, pass, device)
    }
}

impl<S: AppSide<R, E, F>, N: LinkName, R, E, F> Side<
    R,
    Link<Triple<11>, N>,
    AppPass<Triple<11>, N>,
    E,
    F,
> for S {
    type End = S::End;

    ghost starts = { λ side pass first second. S.starts side pass first second };

    ghost runs = { λ side side_then pass pass_then first first_then second second_then end. S.runs side side_then pass pass_then first first_then second second_then end };

    fn go(
        &mut self,
        rt: &R,
        link: &Link<Triple<11>, N>,
        pass: &mut AppPass<Triple<11>, N>,
        first: &mut E,
        second: &mut F,
    ) -> S::End {
        self.run(rt, link, pass, first, second)
    }
}

/// The network's side.
pub(crate) trait NetworkSide<R, L, P> {
    ghost starts: { Self → P → Bool → Type 0 };

    ghost runs: { Self → Self → P → P → Bool → AnyEnd → Type 0 };

    /// Runs the network's loop.
    fn run(&mut self, rt: &R, link: &L, port: &mut P, bound: bool, sends: &mut Sends) -> NetEnd
        requires { starts self.old port.old bound }
        ensures { runs self.old self.new port.old port.new bound result };
}

impl<N: LinkName, P: Port, R: Wait> NetworkSide<R, Link<Triple<11>, N>, P> for Hub<Triple<11>, N> {
    ghost use Rattle.link_live.specs.Loops.{CanRun, HasRun};

    ghost starts = { λ hub port bound. CanRun bound hub (P.seen port) };

    ghost runs = { λ hub hub_then port port_then bound end. HasRun bound hub hub_then (P.seen port) (P.seen port_then) end };

    fn run(
        &mut self,
        rt: &R,
        link: &Link<Triple<11>, N>,
        port: &mut P,
        bound: bool,
        sends: &mut Sends,
    ) -> NetEnd {
        network_loop(rt, self, link, &(), port, bound, sends)
    }
}

/// A link by which the network's loop can be asked to end.
pub(crate) trait Asking<R> {
    fn ask(&self, rt: &R);
}

impl<N: LinkName, R: Wait> Asking<R> for Link<Triple<11>, N> {
    fn ask(&self, rt: &R) {
        ask_to_end(rt, self);
    }
}

/// Runs the network's loop beside both sides, and asks it to end after them.
///
/// Waits: for the threads, in the loop and in the sides. Memory: theirs.
pub(crate) fn run_beside<
    R: Threads + Wait + Sync,
    L: Asking<R> + Sync,
    P: Send,
    U: Send,
    V: Send,
    D: Send,
    E: Send,
    F: Send,
    H: NetworkSide<R, L, P> + Send,
    A: Side<R, L, U, D, ()> + Send,
    B: Side<R, L, V, E, F> + Send,
>(
    rt: &R,
    link: &L,
    hub: &mut H,
    port: &mut P,
    bound: bool,
    sends: &mut Sends,
    audio: &mut A,
    audio_pass: &mut U,
    device: &mut D,
    app: &mut B,
    app_pass: &mut V,
    first: &mut E,
    second: &mut F,
) -> (NetEnd, (A::End, B::End))
    requires network { H.starts hub.old port.old bound }
    requires audio { A.starts audio.old audio_pass.old device.old tt }
    requires app { B.starts app.old app_pass.old first.old second.old }
    ensures network { H.runs hub.old hub.new port.old port.new bound result.0 }
    ensures audio { A.runs audio.old audio.new audio_pass.old audio_pass.new device.old device.new tt tt result.1.0 }
    ensures app { B.runs app.old app.new app_pass.old app_pass.new first.old first.new second.old second.new result.1.1 }
{
    thread::join_mut(
        rt,
        &mut || -> NetEnd
            requires { H.starts hub.now port.now bound }
            ensures { H.runs hub.entry.now hub.exit.now port.entry.now port.exit.now bound result }
        { hub.run(rt, link, port, bound, sends) },
        &mut || -> (A::End, B::End)
            requires { IsSync R.row × IsSync L.row × IsSend U.row × IsSend V.row × IsSend D.row × IsSend E.row × IsSend F.row
                × IsSend A.row × IsSend B.row × A.starts audio.now audio_pass.now device.now tt × B.starts app.now app_pass.now first.now second.now }
            ensures { A.runs audio.entry.now audio.exit.now audio_pass.entry.now audio_pass.exit.now device.entry.now device.exit.now tt tt result.0
                × B.runs app.entry.now app.exit.now app_pass.entry.now app_pass.exit.now first.entry.now first.exit.now second.entry.now second.exit.now result.1 }
        {
            let ends = run_sides(
                rt, link, audio, audio_pass, device, app, app_pass, first, second,
            );
            link.ask(rt);
            ends
        },
    )
}

// Runs both sides beside one another. Waits: for the threads, and in the sides. Memory: theirs.
fn run_sides<
    R: Threads + Wait + Sync,
    L: Sync,
    U: Send,
    V: Send,
    D: Send,
    E: Send,
    F: Send,
    A: Side<R, L, U, D, ()> + Send,
    B: Side<R, L, V, E, F> + Send,
>(
    rt: &R,
    link: &L,
    audio: &mut A,
    audio_pass: &mut U,
    device: &mut D,
    app: &mut B,
    app_pass: &mut V,
    first: &mut E,
    second: &mut F,
) -> (A::End, B::End)
    requires audio { A.starts audio.old audio_pass.old device.old tt }
    requires app { B.starts app.old app_pass.old first.old second.old }
    ensures audio { A.runs audio.old audio.new audio_pass.old audio_pass.new device.old device.new tt tt result.0 }
    ensures app { B.runs app.old app.new app_pass.old app_pass.new first.old first.new second.old second.new result.1 }
{
    let mut none = ();
    thread::join_mut(
        rt,
        &mut || -> A::End
            requires { A.starts audio.now audio_pass.now device.now tt }
            ensures { A.runs audio.entry.now audio.exit.now audio_pass.entry.now audio_pass.exit.now device.entry.now device.exit.now tt tt result }
        { audio.go(rt, link, audio_pass, device, &mut none) },
        &mut || -> B::End
            requires { B.starts app.now app_pass.now first.now second.now }
            ensures { B.runs app.entry.now app.exit.now app_pass.entry.now app_pass.exit.now first.entry.now first.exit.now second.entry.now second.exit.now result }
        { app.go(rt, link, app_pass, first, second) },
    )
}
