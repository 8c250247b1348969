//! A link on which a script is run.

ghost use Rattle.std.specs.Prelude.{◌≡◌, ◌≤◌, All, length};
ghost use Rattle.link_script.specs.LiveScript.{IsCommand, app as app_command, block as block_command};
ghost use Rattle.link_live.specs.LiveRun.{IsReady};
ghost use Rattle.link_live.specs.NodeRun.{ArePartsOf};

use super::super::lines::{Text, put};
use super::super::nodes::config_of;
use super::rows::Row;
use audio_handoff::StateCell;
use client_state::Commit;
use link_live::{Room, ScriptReport, script_loop};
use link_node::{Event, Sends};
use link_script::LiveScript;
use link_shared::{AppPass, Got, Hub, Link, LinkName, Opened, Parts};
use link_text::{LineBuf, write_event, write_state_line};
use lk_base::MOMENT_MAX;
use lk_outside::ListPace;
use std::alloc::Global;
use std::marker::Brand;
use std::process::Abort;
use std::sync::Wait;
use triple_buffer::Triple;

const NOTHING: Commit = Commit {
    timeline: None,
    start: None,
    quantum: None,
    at: 0,
};

/// The run of a row, and what is told of it.
pub fn told_by<R: Wait + Abort>(rt: &R, alloc: Global, row: &Row, script: &LiveScript) -> Text
    requires apps { All (λ command. IsCommand (app_command command)) script.now.apps.items }
    requires commands { All (λ command. IsCommand (block_command command)) script.now.blocks.items }
    requires few { length script.now.blocks.items ≤ 99 }
{
    let mut room = Room::new(alloc, script, 0).expect(rt, "memory for a run");
    let parts = Parts::<Triple<11>>::new(rt, alloc, &(), &config_of(&[0]), 0, 300);
    let parts = parts.expect(rt, "memory for a link");
    told_of::<Triple<11>, Brand, R>(rt, alloc, &(), parts, row, script, &mut room)
}

fn told_of<C: StateCell<11>, N: LinkName, R: Wait + Abort>(
    rt: &R,
    alloc: Global,
    way: &C::Way,
    parts: Parts<C>,
    row: &Row,
    script: &LiveScript,
    room: &mut Room,
) -> Text
    requires link { ArePartsOf N.app_states N.audio_states N.audio_commits N.queue N.name N.parts N.whole parts }
    requires ready { IsReady script.now 0 room.old }
{
    let mut opened = Link::<C, N>::make(parts);
    let Opened { link, hub, app, .. } = &mut opened;
    let mut pace = ListPace::new(row.late.clamp(0, MOMENT_MAX));
    let all = script_loop(
        rt,
        alloc,
        link,
        way,
        app,
        &mut pace,
        script,
        &mut room.script,
    );
    assert!(rt; all);
    let commits = room.script.commits.len();
    let mut sends = Sends::new(alloc).expect(rt, "memory for a turn");
    drain(rt, way, link, hub, commits, &mut sends);
    check_taken(rt, hub.journal(), &room.script.commits);
    check_next(rt, link, app, commits);
    tell(&room.script, hub.journal())
}

// Makes turns until one tells a quit, which is the first one behind all commits. None finds the journal full.
fn drain<C: StateCell<11>, N: LinkName, R: Wait + Abort>(
    rt: &R,
    way: &C::Way,
    link: &Link<C, N>,
    hub: &mut Hub<C, N>,
    commits: usize,
    sends: &mut Sends,
) {
    let mut early = false;
    let mut full = false;
    for _ in 0..commits {
        early = turn(rt, way, link, hub, sends, &mut full) | early;
    }
    let last = turn(rt, way, link, hub, sends, &mut full);
    let more = turn(rt, way, link, hub, sends, &mut full);
    assert!(rt; last & !early & !more & !full);
}

// Makes a turn, notes whether it finds the journal full, and answers whether it tells a quit.
fn turn<C: StateCell<11>, N: LinkName, R: Wait>(
    rt: &R,
    way: &C::Way,
    link: &Link<C, N>,
    hub: &mut Hub<C, N>,
    sends: &mut Sends,
    full: &mut bool,
) -> bool {
    let now = hub.moment();
    let turned = hub.turn(rt, link, way, now, Got::Nothing, sends);
    *full = *full | turned.full;
    turned.quit
}

// The events taken are these commits.
fn check_taken<R: Abort>(rt: &R, journal: &[Event], commits: &[Commit]) {
    let mut right = journal.len() == commits.len();
    for (event, commit) in journal.iter().zip(commits) {
        right = is_of(event, commit) & right;
    }
    assert!(rt; right);
}

fn is_of(event: &Event, commit: &Commit) -> bool {
    match event {
        Event::App { commit: taken, .. } => taken == commit,
        _ => false,
    }
}

// A further commit has the number behind theirs.
fn check_next<C: StateCell<11>, N: LinkName, R: Wait + Abort>(
    rt: &R,
    link: &Link<C, N>,
    app: &mut AppPass<C, N>,
    commits: usize,
) {
    let told = link.commit(rt, app, NOTHING);
    assert!(rt; told == Ok((commits as u64).wrapping_add(1)));
}

fn tell(report: &ScriptReport, journal: &[Event]) -> Text {
    let mut text = Text::new();
    let mut line = LineBuf::new();
    for capture in &report.captures {
        write_state_line(&mut line, 2, capture.number, &capture.shown);
        put(&mut text, &line);
    }
    for event in journal {
        write_event(&mut line, event);
        put(&mut text, &line);
    }
    text
}
