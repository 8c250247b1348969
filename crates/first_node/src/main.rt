//! A node that embeds the runtime, whole: its audio callback sets a tempo, and reads the beat at which each block begins.
#![tactic(auto)]

ghost use Rattle.std.specs.Prelude.{◌≡◌};
ghost use Rattle.link_live.specs.Headline.{new_audio};

use link_live::{
    AudioPass, AudioSide, Commit, GateSetup, Idle, Link, LinkName, ListPort, Triple, beat_at,
    one_gate_config, run_node,
};

/// The beat at which each block begins, in microbeats.
#[derive(Drop)]
struct Beats([i64; 6]);

impl<R> AudioSide<R, ()> for Beats {
    type End = ();

    ghost starts = { λ side pass device. pass ≡ new_audio };

    ghost runs = { λ side side_then pass pass_then device device_then end. Unit {0} };

    fn run<N: LinkName>(
        &mut self,
        _rt: &R,
        link: &Link<Triple<11>, N>,
        pass: &mut AudioPass<Triple<11>, N>,
        _device: &mut (),
    ) {
        let capture = link.capture_audio(&(), pass);
        let mut edited = capture.shown;
        edited.set_tempo(400_000, 0);
        let commit = Commit::between(&capture.state, &capture.shown, &edited, 0);
        link.commit_audio(&(), pass, &commit);
        for block in 0..6 {
            let capture = link.capture_audio(&(), pass);
            self.0[block] = beat_at(&capture.shown.timeline, 500_000 * block as i64);
        }
    }
}

fn main(rt: HostRuntime) -> std::io::Result<()> {
    let mut port = ListPort::new(rt.alloc(), Vec::new(rt.alloc()), 100, Vec::new(rt.alloc()))?;
    let mut beats = Beats([0; 6]);
    run_node(
        &rt,
        rt.alloc(),
        &one_gate_config(1, 500_000, GateSetup::default()),
        0,
        1_000,
        &mut port,
        &mut beats,
        &mut (),
        &mut Idle,
        &mut (),
        &mut (),
    )?;
    println!(rt; "{:?}", beats.0)
}
