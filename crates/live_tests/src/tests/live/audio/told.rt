//! What is told of a run, as one line.

use super::super::lines::{Text, put, put_count, put_number};
use client_state::{Commit, State};
use link_live::AudioReport;
use lk_base::Clicks;
use lk_outside::ListAudio;

/// The line of a run has four parts.
///
/// Of each read, the microseconds per beat shown, and `p` where it plays, `-` where it doesn't.
///
/// Of each commit, the timeline where there is one, as its tempo, its beat and its time; the start where there is one, as `p` with its time
/// where it plays and `q` where it doesn't, and `s` its stamp; the quantum where there is one, behind `b`; `@` when it was made.
///
/// Of each play, its clicks, a `*` behind an accent.
///
/// Whether it ended well, how many blocks were given and how many are left, and `!` the count of faults.
pub fn tell(report: &AudioReport, device: &ListAudio, ended: bool) -> Text {
    let mut text = Text::new();
    for capture in &report.reads {
        put_state(&mut text, &capture.shown);
    }
    put(&mut text, b"| ");
    for commit in &report.commits {
        put_commit(&mut text, commit);
    }
    put(&mut text, b"| ");
    for clicks in &report.plays {
        put_clicks(&mut text, clicks);
    }
    put(&mut text, if ended { b"| true " } else { b"| false " });
    put_end(&mut text, device);
    text
}

fn put_state(text: &mut Text, state: &State) {
    put_number(text, b"", state.timeline.mpb);
    put(text, if state.start.playing { b"p " } else { b"- " });
}

fn put_commit(text: &mut Text, commit: &Commit) {
    if let Some(timeline) = commit.timeline {
        put_number(text, b"", timeline.mpb);
        put_number(text, b",", timeline.beat);
        put_number(text, b",", timeline.time);
        put(text, b" ");
    }
    if let Some(start) = commit.start {
        put_number(text, if start.playing { b"p" } else { b"q" }, start.time);
        put_number(text, b" s", start.stamp);
        put(text, b" ");
    }
    if let Some(quantum) = commit.quantum {
        put_number(text, b"b", quantum);
        put(text, b" ");
    }
    put_number(text, b"@", commit.at);
    put(text, b" ");
}

fn put_clicks(text: &mut Text, clicks: &Clicks) {
    let mut before: &[u8] = b"[";
    for click in clicks.as_slice() {
        put_number(text, before, click.at);
        if click.accent {
            put(text, b"*");
        }
        before = b" ";
    }
    put(text, if clicks.is_empty() { b"[] " } else { b"] " });
}

fn put_end(text: &mut Text, device: &ListAudio) {
    put_count(text, b"", device.given().len() as u64);
    put_count(text, b"+", device.rest().len() as u64);
    put_count(text, b" !", device.fault_count());
}
