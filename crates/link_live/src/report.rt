//! What a live run tells of itself.

ghost use Rattle.std.specs.Prelude.{◌≡◌, []};
ghost use Rattle.link_node.specs.Config.{config_value};
ghost use Rattle.link_live.specs.LiveRun.{told_of};
ghost use Rattle.link_live.specs.Report.{IsCleared, TellsNoRun, report_value};

use crate::audio::AudioReport;
use crate::run::LiveRun;
use crate::script::ScriptReport;
use arrayvec::ArrayVec;
use client_state::{Commit, State};
use link_node::{Config, Event};
use link_shared::Capture;
use lk_base::{Clicks, NodeId};
use std::alloc::Global;

/// What a live run tells of itself: its node, and in order what that took and published, and what the audio thread and the script's
/// application did.
#[derive(Debug, Drop)]
pub struct Report {
    /// The node's config, with the id that was drawn.
    pub config: Config,
    /// The moment at which the node was opened, in microseconds.
    pub now: i64,
    /// The journal: each event that the node took.
    pub events: Vec<Event>,
    /// The states published, the opening one first.
    pub published: Vec<State>,
    /// What the audio thread captured, once for each block that the device gave.
    pub reads: Vec<Capture>,
    /// What the application captured, once for each command.
    pub captures: Vec<Capture>,
    /// What the application committed.
    pub app_commits: Vec<Commit>,
    /// What the audio thread committed.
    pub audio_commits: Vec<Commit>,
    /// The clicks of each block that was played.
    pub plays: Vec<Clicks>,
}

impl Report {
    /// A report of no run: a config without a gate, opened at 0, and empty lists. Memory: none.
    pub fn new(alloc: Global) -> Report
        ensures { TellsNoRun (report_value result) }
    {
        Report {
            config: Config {
                id: NodeId([0; 8]),
                seed: 0,
                mpb: 0,
                sync: false,
                group: 0,
                quantum: 0,
                gates: ArrayVec::new(),
            },
            now: 0,
            events: Vec::new(alloc),
            published: Vec::new(alloc),
            reads: Vec::new(alloc),
            captures: Vec::new(alloc),
            app_commits: Vec::new(alloc),
            audio_commits: Vec::new(alloc),
            plays: Vec::new(alloc),
        }
    }

    /// Empties the lists. Config and moment stay.
    pub fn clear(&mut self)
        ensures { IsCleared (report_value self.old) (report_value self.new) }
    {
        self.events.clear();
        self.published.clear();
        self.reads.clear();
        self.captures.clear();
        self.app_commits.clear();
        self.audio_commits.clear();
        self.plays.clear();
    }

    /// Tells of this run of a node that was opened so, in place of what was told before. Memory: none.
    pub fn keep(&mut self, config: Config, now: i64, run: LiveRun)
        ensures { report_value self.new ≡ told_of (config_value config) now run }
    {
        let LiveRun {
            end: _,
            events,
            published,
            audio,
            script,
        } = run;
        let AudioReport {
            reads,
            commits: audio_commits,
            plays,
        } = audio;
        let ScriptReport {
            captures,
            commits: app_commits,
        } = script;
        self.config = config;
        self.now = now;
        self.events = events;
        self.published = published;
        self.reads = reads;
        self.captures = captures;
        self.app_commits = app_commits;
        self.audio_commits = audio_commits;
        self.plays = plays;
    }
}
