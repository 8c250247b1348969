//! A link whose network's loop runs over a port in memory.

ghost use Rattle.std.specs.Prelude.{◌≡◌, true};
ghost use Rattle.lk_base.specs.Ranges.{IsMoment};
ghost use Rattle.lk_outside.specs.ListPort.{bound_of};
ghost use Rattle.client_state.specs.Commit.{IsTidyCommit};
ghost use Rattle.link_node.specs.Config.{config_value, IsConfig};
ghost use Rattle.link_live.specs.Network.{locals_of};
ghost use Rattle.link_live.specs.NodeRun.{ArePartsOf};

use super::super::nodes::config_of;
use super::given::{Given, bind, commit_of, is_app_commit, most_of, opening_of, port_of};
use super::told::{Told, tell};
use super::watch::{Untils, Watch};
use audio_handoff::StateCell;
use client_state::Commit;
use link_live::network_loop;
use link_node::{Config, Sends};
use link_shared::{AppPass, AudioPass, Link, LinkName, Opened, Parts};
use std::alloc::Global;
use std::marker::Brand;
use std::process::Abort;
use std::sync::Wait;
use triple_buffer::Triple;

/// The run of what is given, and what is told of it.
pub fn told_over<R: Wait + Abort>(rt: &R, alloc: Global, given: &Given) -> Told {
    let config = config_of(given.gates);
    let mut watch = Watch {
        port: port_of(rt, alloc, given),
        untils: Untils::new(),
    };
    let bound = bind(&mut watch.port, given, &config);
    told_by(rt, alloc, given, &config, &mut watch, bound)
}

fn told_by<R: Wait + Abort>(
    rt: &R,
    alloc: Global,
    given: &Given,
    config: &Config,
    watch: &mut Watch,
    bound: bool,
) -> Told
    requires config { IsConfig (config_value config.now) }
    requires gates { bound ≡ true → bound_of watch.old.port ≡ locals_of (config_value config.now) }
{
    let mut sends = Sends::new(alloc).expect(rt, "memory for what is sent");
    let (opening, most) = (opening_of(given), most_of(given));
    let parts = Parts::<Triple<11>>::new(rt, alloc, &(), config, opening, most);
    let parts = parts.expect(rt, "memory for a link");
    told_of::<Triple<11>, Brand, R>(rt, &(), parts, given, watch, bound, &mut sends)
}

fn told_of<C: StateCell<11>, N: LinkName, R: Wait + Abort>(
    rt: &R,
    way: &C::Way,
    parts: Parts<C>,
    given: &Given,
    watch: &mut Watch,
    bound: bool,
    sends: &mut Sends,
) -> Told
    requires link { ArePartsOf N.app_states N.audio_states N.audio_commits N.queue N.name N.parts N.whole parts }
    requires gates { bound ≡ true → bound_of watch.old.port ≡ locals_of parts.config }
{
    let mut opened = Link::<C, N>::make(parts);
    let Opened {
        link,
        hub,
        audio,
        app,
    } = &mut opened;
    fill(rt, way, link, audio, app, given);
    let end = network_loop(rt, hub, link, way, watch, bound, sends);
    tell(hub.journal(), watch, end, opening_of(given))
}

// Makes the commits of the queue, and asks the loop to end at the quit.
fn fill<C: StateCell<11>, N: LinkName, R: Wait + Abort>(
    rt: &R,
    way: &C::Way,
    link: &Link<C, N>,
    audio: &mut AudioPass<C, N>,
    app: &mut AppPass<C, N>,
    given: &Given,
) {
    let mut quits = false;
    let mut fits = true;
    let mut place = 0u16;
    for letter in given.queue {
        let commit = commit_of(*letter, place, opening_of(given));
        fits = push(rt, way, link, audio, app, *letter, commit) & fits;
        quits = quits | (*letter == b'q');
        place = place.wrapping_add(1);
    }
    // Without a quit the loop has no end.
    assert!(rt; quits & fits);
}

// Makes the commit of a letter, or asks the loop to end. Answers whether it found room.
fn push<C: StateCell<11>, N: LinkName, R: Wait>(
    rt: &R,
    way: &C::Way,
    link: &Link<C, N>,
    audio: &mut AudioPass<C, N>,
    app: &mut AppPass<C, N>,
    letter: u8,
    commit: Commit,
) -> bool
    requires { IsTidyCommit commit }
{
    if is_app_commit(letter) {
        return link.commit(rt, app, commit).is_ok();
    }
    if letter == b'u' && !link.audio_spent(audio) {
        let _number = link.commit_audio(way, audio, &commit);
    }
    letter != b'q' || link.quit(rt).is_ok()
}
