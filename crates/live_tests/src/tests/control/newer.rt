//! That a line is answered by the state of its moment: the pace is asked before the state is captured.

ghost use Rattle.std.specs.Prelude.{◌≡◌, ◌≤◌, [], None, vec_capacity, IsSome};
ghost use Rattle.lk_outside.specs.ListTalk.{opened_of};
ghost use Rattle.client_state.specs.Commit.{IsTidyCommit};
ghost use Rattle.link_live.specs.NodeRun.{ArePartsOf};

use super::node::config;
use super::session::{open, talk_of};
use client_state::Commit;
use link_control::{LineLog, Served, SessionLog, serve};
use link_node::Sends;
use link_shared::{AudioPass, Got, Hub, Link, LinkName, Opened, Parts};
use lk_outside::{ListTalk, Pace, SAY};
use std::alloc::Global;
use std::marker::Brand;
use std::process::Abort;
use std::sync::Wait;
use triple_buffer::Triple;

// A line that commits stands among the others.
const SENT: &[u8] = b"status\nplay\nstatus\nbeat 0\n";

/// A pace that answers each moment as asked once the hub has published a newer state: a turn takes a commit of the audio thread.
#[derive(Drop)]
struct Publishing<'a, N: LinkName, R> {
    rt: &'a R,
    link: &'a Link<Triple<11>, N>,
    hub: Hub<Triple<11>, N>,
    audio: AudioPass<Triple<11>, N>,
    sends: Sends,
}

impl<'a, N: LinkName, R: Wait> Pace for Publishing<'a, N, R> {
    ghost late = { λ _. None };

    fn until(&mut self, moment: i64) -> i64 {
        let Publishing {
            rt,
            link,
            hub,
            audio,
            sends,
        } = self;
        if !link.audio_spent(audio) {
            let _number = link.commit_audio(&(), audio, &unchanged());
        }
        let _turned = hub.turn(*rt, *link, &(), moment, Got::Nothing, sends);
        moment
    }
}

// A commit of which the state shows that it was taken alone.
fn unchanged() -> Commit
    ensures { IsTidyCommit result }
{
    Commit {
        timeline: None,
        start: None,
        quantum: None,
        at: 0,
    }
}

#[test]
fn each_line_is_captured_for_after_its_moment_has_come(rt: HostRuntime) {
    let log = log_of(&rt, rt.alloc());
    assert!(rt; log.lines.len() == 4);
    for (k, line) in log.lines.iter().enumerate() {
        assert!(rt; is_new(k as u64, line), "{k}");
    }
}

// Whether the line behind so many others shows a state that was published while the pace was asked for it: one at least for each line so
// far, and the audio thread's last commit.
fn is_new(before: u64, line: &LineLog) -> bool {
    line.capture.number > before && line.capture.state.audio == before.saturating_add(1)
}

fn log_of<R: Wait + Abort>(rt: &R, alloc: Global) -> SessionLog {
    let mut talk = talk_of(rt, alloc, SENT, 512, 1_000, (SAY, 0));
    open(rt, &mut talk);
    let mut log = SessionLog::new(alloc).expect(rt, "memory for a log");
    let sends = Sends::new(alloc).expect(rt, "memory for what is sent");
    let parts = Parts::<Triple<11>>::new(rt, alloc, &(), &config(), 0, 300);
    let parts = parts.expect(rt, "memory for a link");
    let end = served_late::<Brand, R>(rt, alloc, parts, sends, &mut talk, &mut log);
    assert!(rt; end == Served::Ended);
    log
}

fn served_late<N: LinkName, R: Wait>(
    rt: &R,
    alloc: Global,
    parts: Parts<Triple<11>>,
    sends: Sends,
    talk: &mut ListTalk,
    log: &mut SessionLog,
) -> Served
    requires link { ArePartsOf N.app_states N.audio_states N.audio_commits N.queue N.name N.parts N.whole parts }
    requires opened { IsSome (opened_of talk.old) }
    requires log { (log.old.lines.items ≡ []) × (4_096 ≤ vec_capacity log.old.lines) }
{
    let Opened {
        link,
        hub,
        audio,
        mut app,
    } = Link::<Triple<11>, N>::make(parts);
    let mut pace = Publishing {
        rt,
        link: &link,
        hub,
        audio,
        sends,
    };
    serve(rt, alloc, &link, &(), &mut app, talk, &mut pace, log)
}
