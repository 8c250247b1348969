//! Taking a commit.

use crate::node::Node;
use client_state::{Commit, later_start, session_from_client, start_to_session};
use lk_base::{ClientStart, SessionStart, Timeline};

impl Node {
    ghost use Rattle.std.specs.Prelude.{◌≡◌, ◌⊎◌, ◌<◌, ◌<ℤ◌, ◌+◌, ◌^◌, is_some, int_lt, IfSome};
    ghost use Rattle.std.specs.Option.{ForSome};
    ghost use Rattle.lk_base.specs.Ranges.{IsQuantum, IsWithinLimit};
    ghost use Rattle.lk_base.specs.Timeline.{IsTidy};
    ghost use Rattle.session_choice.specs.History.{committed};
    ghost use Rattle.client_state.specs.Commit.{IsTidyCommit, IsTidyStart};
    ghost use Rattle.client_state.specs.Timelines.{session_from_client_of};
    ghost use Rattle.link_node.specs.Commits.{app_taken, audio_taken, commit_taken, quantum_committed, rest_committed, start_committed, with_client_start, client_taken};
    ghost use Rattle.link_node.specs.Machine.{Machine, timeline_in, offset_in, start_in};
    ghost use Rattle.link_node.specs.Standing.{HasParts, gates_of, app_of, audio_of};
    ghost use Rattle.link_node.specs.WellFormed.{IsInLimits};

    // A commit of an application.
    pub(super) fn take_app(&mut self, commit: &Commit)
        requires tidy { IsTidyCommit commit.now }
        requires few { app_of self.old < 2 ^ 60 }
        ensures stands { (m : Machine) → HasParts self.old m → HasParts self.new (app_taken commit.now m) }
        ensures gates { gates_of self.new ≡ gates_of self.old }
        ensures app { app_of self.new ≡ app_of self.old + 1 }
        ensures audio { audio_of self.new ≡ audio_of self.old }
    {
        self.app += 1;
        self.take_commit(commit);
    }

    // A commit of the audio thread, by its number.
    pub(super) fn take_audio(&mut self, number: u64, commit: &Commit)
        requires tidy { IsTidyCommit commit.now }
        ensures stands { (m : Machine) → HasParts self.old m → HasParts self.new (audio_taken number commit.now m) }
        ensures gates { gates_of self.new ≡ gates_of self.old }
        ensures app { app_of self.new ≡ app_of self.old }
        ensures audio { audio_of self.new ≡ number }
    {
        self.audio = number;
        self.take_commit(commit);
    }

    // Its timeline, start and quantum. Where the session's beat origin can't grow, nothing of the commit is taken.
    fn take_commit(&mut self, commit: &Commit)
        requires tidy { IsTidyCommit commit.now }
        ensures stands { (m : Machine) → HasParts self.old m → HasParts self.new (commit_taken commit.now m) }
        ensures gates { gates_of self.new ≡ gates_of self.old }
        ensures app { app_of self.new ≡ app_of self.old }
        ensures audio { audio_of self.new ≡ audio_of self.old }
    {
        match commit.timeline {
            Some(client) => {
                if self.take_client_timeline(client, commit.at) {
                    self.take_rest(commit);
                }
            }
            None => self.take_rest(commit),
        }
    }

    // Its start and its quantum.
    fn take_rest(&mut self, commit: &Commit)
        requires tidy { IsTidyCommit commit.now }
        ensures stands { (m : Machine) → HasParts self.old m → HasParts self.new (rest_committed commit.now m) }
        ensures gates { gates_of self.new ≡ gates_of self.old }
        ensures app { app_of self.new ≡ app_of self.old }
        ensures audio { audio_of self.new ≡ audio_of self.old }
    {
        self.take_client_start(&commit.start);
        self.take_quantum(commit.quantum);
    }

    fn take_quantum(&mut self, quantum: Option<i64>)
        requires { ForSome quantum IsQuantum }
        ensures stands { (m : Machine) → HasParts self.old m → HasParts self.new (quantum_committed quantum m) }
        ensures gates { gates_of self.new ≡ gates_of self.old }
        ensures app { app_of self.new ≡ app_of self.old }
        ensures audio { audio_of self.new ≡ audio_of self.old }
    {
        self.quantum = quantum.unwrap_or(self.quantum);
    }

    // The client's timeline is the commit's, and the session takes the one that is made of it. False where the session's beat
    // origin can't grow; nothing changes then.
    fn take_client_timeline(&mut self, client: Timeline, at: i64) -> bool
        requires client { IsTidy client }
        requires at { IsWithinLimit at }
        ensures answer { (m : Machine) → HasParts self.old m
            → result ≡ is_some (session_from_client_of (timeline_in m) client at (offset_in m)) }
        ensures stands { (m : Machine) → HasParts self.old m
            → HasParts self.new (client_taken (session_from_client_of (timeline_in m) client at (offset_in m)) client m) }
        ensures gates { gates_of self.new ≡ gates_of self.old }
        ensures app { app_of self.new ≡ app_of self.old }
        ensures audio { audio_of self.new ≡ audio_of self.old }
    {
        let Some(session) = self.session_by(&client, at) else {
            return false;
        };
        self.client = client;
        self.give_session(session);
        self.renew();
        true
    }

    // The session's timeline that is made of a client's. None where its beat origin can't grow.
    fn session_by(&self, client: &Timeline, at: i64) -> Option<Timeline>
        requires client { IsTidy client.now }
        requires at { IsWithinLimit at }
        ensures value { (m : Machine) → HasParts self.now m
            → result ≡ session_from_client_of (timeline_in m) client.now at (offset_in m) }
        ensures tidy { IfSome result IsTidy }
        ensures later { IfSome result (λ tl. (tl ≡ self.now.sessions.current.timeline)
            ⊎ (self.now.sessions.current.timeline.beat <ℤ tl.beat)) }
    {
        let current = self.sessions.current();
        match session_from_client(&current.timeline, client, at, current.xform) {
            Ok(session) => Some(session),
            Err(_) => None,
        }
    }

    // The session takes a timeline.
    fn give_session(&mut self, session: Timeline)
        requires tidy { IsTidy session }
        requires later { (session ≡ self.old.sessions.current.timeline)
            ⊎ (self.old.sessions.current.timeline.beat <ℤ session.beat) }
        ensures stands { (m : Machine) → HasParts self.old m
            → HasParts self.new (record m { sessions = committed session m.sessions }) }
        ensures gates { gates_of self.new ≡ gates_of self.old }
        ensures app { app_of self.new ≡ app_of self.old }
        ensures audio { audio_of self.new ≡ audio_of self.old }
    {
        self.sessions.commit(session);
    }

    // A start counts where it is later than the client's; with sync, one that is later than the session's is the session's too.
    fn take_client_start(&mut self, start: &Option<ClientStart>)
        requires { ForSome start.now IsTidyStart }
        ensures stands { (m : Machine) → HasParts self.old m → HasParts self.new (start_committed start.now m) }
        ensures gates { gates_of self.new ≡ gates_of self.old }
        ensures app { app_of self.new ≡ app_of self.old }
        ensures audio { audio_of self.new ≡ audio_of self.old }
    {
        if let Some(start) = start {
            if self.is_earlier(start) {
                self.hold_client_start(start);
            }
        }
    }

    // Whether the client's start is earlier than this one.
    fn is_earlier(&self, start: &ClientStart) -> bool
        ensures { (m : Machine) → HasParts self.now m → result ≡ int_lt m.client_start.stamp start.now.stamp }
    {
        self.client_start.stamp < start.stamp
    }

    fn hold_client_start(&mut self, start: &ClientStart)
        requires { IsTidyStart start.now }
        ensures stands { (m : Machine) → HasParts self.old m → HasParts self.new (with_client_start start.now m) }
        ensures gates { gates_of self.new ≡ gates_of self.old }
        ensures app { app_of self.new ≡ app_of self.old }
        ensures audio { audio_of self.new ≡ audio_of self.old }
    {
        self.session_start = self.session_start_by(start);
        self.client_start = *start;
    }

    // The session's start, where the client has this one: with sync the later of the two.
    fn session_start_by(&self, start: &ClientStart) -> SessionStart
        ensures value { (m : Machine) → HasParts self.now m → result ≡ start_in (with_client_start start.now m) }
        ensures range { IsInLimits result }
    {
        if !self.config.sync {
            return self.session_start;
        }
        let current = self.sessions.current();
        let seen = start_to_session(start, &current.timeline, current.xform);
        match later_start(&self.session_start, &seen) {
            Some(later) => later,
            None => self.session_start,
        }
    }
}
