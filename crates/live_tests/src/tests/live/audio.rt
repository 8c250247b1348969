//! Runs of the audio thread's loop, over a device and a link in memory.
//!
//! The link opens at a second with 500,000 microseconds per beat from beat 0 there, and doesn't play. The blocks of the device are a second
//! long and begin where the link opens, with a quantum of four beats. The link's network thread makes no turn, so no commit is taken.

mod rows;
mod told;

ghost use Rattle.std.specs.Prelude.{◌≡◌, ◌≤◌, [], All, length};
ghost use Rattle.link_script.specs.LiveScript.{IsCommand, app as app_command, block as block_command};
ghost use Rattle.link_live.specs.LiveRun.{IsReady};
ghost use Rattle.link_live.specs.NodeRun.{ArePartsOf};

use super::devices::{Blocks, device_of};
use super::lines::Text;
use super::nodes::config_of;
use super::scripts::script_of;
use audio_handoff::StateCell;
use client_state::Commit;
use link_live::{Room, audio_loop};
use link_script::LiveScript;
use link_shared::{AudioPass, Link, LinkName, Opened, Parts};
use lk_base::ClientStart;
use lk_outside::ListAudio;
use rows::{ROWS, Row};
use std::alloc::Global;
use std::marker::Brand;
use std::process::Abort;
use std::sync::Wait;
use told::tell;
use triple_buffer::Triple;

// rule: clicks_of_blocks, block_commits
#[test]
fn each_block_is_played_by_one_state_and_its_commits_follow(rt: HostRuntime) {
    for row in ROWS {
        expect_row(&rt, rt.alloc(), row);
    }
}

fn expect_row<R: Wait + Abort>(rt: &R, alloc: Global, row: &Row) {
    let script = script_of(alloc, row.commands).expect(rt, "a script");
    let told = told_by(rt, alloc, row, &script);
    assert_eq!(rt; told.as_slice(), row.told.as_bytes(), "{}", row.commands);
}

fn told_by<R: Wait + Abort>(rt: &R, alloc: Global, row: &Row, script: &LiveScript) -> Text
    requires apps { All (λ command. IsCommand (app_command command)) script.now.apps.items }
    requires commands { All (λ command. IsCommand (block_command command)) script.now.blocks.items }
    requires few { length script.now.blocks.items ≤ 99 }
{
    let room = Room::new(alloc, script, u64::from(row.blocks));
    let mut room = room.expect(rt, "memory for a run");
    let mut device = device_of(rt, alloc, Blocks::Long, row.device, row.failing);
    let ended = played_on(rt, alloc, row, script, &mut room, &mut device);
    tell(&room.audio, &device, ended)
}

// Whether the blocks of a row ended well.
fn played_on<R: Wait + Abort>(
    rt: &R,
    alloc: Global,
    row: &Row,
    script: &LiveScript,
    room: &mut Room,
    device: &mut ListAudio,
) -> bool
    requires few { length script.now.blocks.items ≤ 99 }
    requires ready { IsReady script.now row.now.blocks room.old }
{
    let config = config_of(&[0]);
    let parts = Parts::<Triple<11>>::new(rt, alloc, &(), &config, 1_000_000, 1);
    let parts = parts.expect(rt, "memory for a link");
    played_over::<Triple<11>, Brand>(parts, row, script, room, device)
}

fn played_over<C: StateCell<11, Way = ()>, N: LinkName>(
    parts: Parts<C>,
    row: &Row,
    script: &LiveScript,
    room: &mut Room,
    device: &mut ListAudio,
) -> bool
    requires link { ArePartsOf N.app_states N.audio_states N.audio_commits N.queue N.name N.parts N.whole parts }
    requires few { length script.now.blocks.items ≤ 99 }
    requires ready { IsReady script.now row.now.blocks room.old }
{
    let mut opened = Link::<C, N>::make(parts);
    let Opened { link, audio, .. } = &mut opened;
    commit_before(link, audio, row.commits);
    play(link, audio, row, script, room, device)
}

fn play<C: StateCell<11, Way = ()>, N: LinkName>(
    link: &Link<C, N>,
    pass: &mut AudioPass<C, N>,
    row: &Row,
    script: &LiveScript,
    room: &mut Room,
    device: &mut ListAudio,
) -> bool
    requires made { length pass.old.made ≤ 1 }
    requires few { length script.now.blocks.items ≤ 99 }
    requires ready { IsReady script.now row.now.blocks room.old }
{
    audio_loop(
        link,
        pass,
        device,
        script,
        u64::from(row.blocks),
        &mut room.audio,
    )
}

// The commit made before, where there is one: it plays from half a second after the opening on.
fn commit_before<C: StateCell<11, Way = ()>, N: LinkName>(
    link: &Link<C, N>,
    pass: &mut AudioPass<C, N>,
    commits: bool,
)
    requires { pass.old.made ≡ [] }
    ensures { length pass.new.made ≤ 1 }
{
    if commits {
        let start = ClientStart {
            playing: true,
            time: 1_500_000,
            stamp: 1,
        };
        let commit = Commit {
            timeline: None,
            start: Some(start),
            quantum: None,
            at: 1,
        };
        let _number = link.commit_audio(&(), pass, &commit);
    }
}
