//! A quit that finds the queue full.
//!
//! 256 commits stand in the queue. One thread asks the network's loop to end, and another one makes the turns beside it.

ghost use Rattle.std.specs.Prelude.{◌≡◌};
ghost use Rattle.std.specs.Thread.{IsSync};
ghost use Rattle.link_live.specs.NodeRun.{ArePartsOf};

use super::nodes::config_of;
use audio_handoff::StateCell;
use client_state::Commit;
use link_live::ask_to_end;
use link_node::Sends;
use link_shared::{AppPass, Got, Hub, Link, LinkName, Opened, Parts};
use std::alloc::Global;
use std::marker::Brand;
use std::process::Abort;
use std::sync::Wait;
use std::thread;
use std::thread::{Parker, Threads};
use std::time::Duration;
use triple_buffer::Triple;

/// How many items the queue has room for.
const PLACES: u16 = 256;

/// How many turns are made at most.
const TURNS: u16 = 356;

/// How long it is waited for the thread that asks, in milliseconds.
const REST: u64 = 50;

const NOTHING: Commit = Commit {
    timeline: None,
    start: None,
    quantum: None,
    at: 0,
};

#[test]
fn a_quit_waits_for_room_behind_256_commits(rt: HostRuntime) {
    quit_late(&rt, rt.alloc());
}

fn quit_late<R: Threads + Wait + Sync + Abort>(rt: &R, alloc: Global) {
    let sends = Sends::new(alloc).expect(rt, "memory for what is sent");
    let parts = Parts::<Triple<11>>::new(rt, alloc, &(), &config_of(&[0]), 0, 300);
    let parts = parts.expect(rt, "memory for a link");
    quit_over::<Triple<11>, Brand, R>(rt, &(), parts, sends);
}

fn quit_over<C: StateCell<11> + Sync, N: LinkName + Send + Sync, R: Threads + Wait + Sync + Abort>(
    rt: &R,
    way: &C::Way,
    parts: Parts<C>,
    sends: Sends,
)
where
    C::Way: Sync,
    requires link { ArePartsOf N.app_states N.audio_states N.audio_commits N.queue N.name N.parts N.whole parts }
{
    let Opened {
        link,
        hub,
        mut app,
        ..
    } = Link::<C, N>::make(parts);
    fill(rt, &link, &mut app);
    let taken = ask_beside_turns(rt, way, &link, hub, sends);
    assert_eq!(rt; taken, 256);
}

// Pushes commits until no quit has room.
fn fill<C: StateCell<11>, N: LinkName, R: Wait + Abort>(
    rt: &R,
    link: &Link<C, N>,
    app: &mut AppPass<C, N>,
) {
    let mut fits = true;
    for _ in 0..PLACES {
        fits = link.commit(rt, app, NOTHING).is_ok() & fits;
    }
    let full = link.quit(rt).is_err();
    assert!(rt; fits & full);
}

// Asks the network's loop to end in another thread than the one that makes the turns. Answers as they do.
//
// A function that joins threads names the types of a cell's tokens.
fn ask_beside_turns<
    A: Drop + Send,
    B: Drop + Send,
    D: Drop + Send,
    W: Sync,
    C: StateCell<11, Way = W, Writer = A, Reader = B, Note = D> + Sync,
    N: LinkName + Send + Sync,
    R: Threads + Wait + Sync,
>(rt: &R, way: &W, link: &Link<C, N>, hub: Hub<C, N>, sends: Sends) -> usize {
    let (_asked, taken) = thread::join(
        rt,
        move ||
            requires { IsSync R.row }
        { ask_to_end::<C, N, R>(rt, link) },
        move ||
            requires { IsSync R.row }
        { turn_to_quit::<C, N, R>(rt, way, link, hub, sends) },
    );
    taken
}

// Makes turns until one tells a quit. Answers how many commits were taken by then, and 0 where none tells a quit. It waits before the
// first turn, so that the other thread finds the queue full, and before each that may find it empty, so that the quit can come.
fn turn_to_quit<C: StateCell<11>, N: LinkName, R: Wait>(
    rt: &R,
    way: &C::Way,
    link: &Link<C, N>,
    mut hub: Hub<C, N>,
    mut sends: Sends,
) -> usize {
    let mut taken = 0;
    for turn in 0..TURNS {
        if turn == 0 || turn >= PLACES {
            Parker::new().park_timeout(rt, Duration::from_millis(REST));
        }
        let turned = hub.turn(rt, link, way, 0, Got::Nothing, &mut sends);
        if turned.quit {
            taken = hub.journal().len();
            break;
        }
    }
    taken
}
