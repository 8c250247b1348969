//! The loop of the audio thread: for each block that the device asks for, one whole state, its clicks, and the commits of the block.

ghost use Rattle.std.specs.Prelude.{◌≡◌, ◌≤◌, ◌<◌, ◌+◌, ◌^◌, [], ◌∷◌, length, map, not, All, Option, Some, vec_capacity};
ghost use Rattle.client_state.specs.Commit.{IsTidyCommit};
ghost use Rattle.client_state.specs.Shown.{shown_over};
ghost use Rattle.client_state.specs.State.{IsTidyState};
ghost use Rattle.lk_base.specs.Ranges.{IsMoment};
ghost use Rattle.lk_outside.specs.Audio.{AudioContents};
ghost use Rattle.link_shared.specs.Audio.{AudioView};
ghost use Rattle.link_script.specs.LiveScript.{IsAct, IsCommand, block as block_command};
ghost use Rattle.link_live.specs.AudioRun.{IsAudioRun, HasAudioCause, acts_in};
ghost use Rattle.link_live.specs.PlayingRun.{AfterBlock, HasBlockCause, HasCommitted, IsPlaying, IsShownWith};

use crate::edit::commit_of;
use audio_handoff::StateCell;
use client_state::{Commit, Own, State, shown};
use link_script::{BlockCommand, LiveScript};
use link_shared::{AudioPass, Capture, Link, LinkName};
use lk_base::Clicks;
use lk_outside::{Audio, Next, Played};

/// What the audio thread did, in order.
#[derive(Debug, Drop)]
pub struct AudioReport {
    /// For each block that the device gave, what was captured.
    pub reads: Vec<Capture>,
    /// The commits made.
    pub commits: Vec<Commit>,
    /// For each block played, its clicks.
    pub plays: Vec<Clicks>,
}

/// Plays at most `blocks` blocks, as the device asks for them: for each it captures a state, plays the clicks of what is shown, with
/// the accents of its quantum, and then makes the commits of the script's commands for that block, which count from 1. It ends where
/// the device is closed or fails, and answers false where it has failed.
///
/// Waits: in the device. Memory: none.
pub fn audio_loop<C: StateCell<11, Way = ()>, N: LinkName, A: Audio>(
    link: &Link<C, N>,
    pass: &mut AudioPass<C, N>,
    audio: &mut A,
    script: &LiveScript,
    blocks: u64,
    report: &mut AudioReport,
) -> bool
    requires commands { All (λ command. IsCommand (block_command command)) script.now.blocks.items }
    requires numbers { length pass.old.made + length script.now.blocks.items < 2 ^ 60 }
    requires empty { (report.old.reads.items ≡ []) × (report.old.commits.items ≡ []) × (report.old.plays.items ≡ []) }
    requires room { (blocks ≤ vec_capacity report.old.reads) × (blocks ≤ vec_capacity report.old.plays) }
    requires room_for_commits { length script.now.blocks.items ≤ vec_capacity report.old.commits }
    ensures run { IsAudioRun blocks script.now.blocks.items pass.old pass.new (A.seen audio.old).told (A.seen audio.new).told
        report.new.reads.items report.new.commits.items (map (λ clicks. clicks.items) report.new.plays.items) (not result) }
    ensures cause { HasAudioCause (A.seen audio.old).faults (A.seen audio.new).faults result }
{
    let mut played = 0;
    while played < blocks {
        match audio_block(link, pass, audio, &script.blocks, played + 1, report) {
            BlockEnd::Played => played += 1,
            BlockEnd::Closed => return true,
            BlockEnd::Failed => return false,
        }
    }
    true
}

// How a block ended.
#[derive(Clone, Copy, Debug, PartialEq, Eq)]
enum BlockEnd {
    Played,
    // No block is left.
    Closed,
    // The device failed.
    Failed,
}

// The block of a number: one capture, its clicks, and its commits once it was played. Waits: in the device. Memory: none.
fn audio_block<C: StateCell<11, Way = ()>, N: LinkName, A: Audio>(
    link: &Link<C, N>,
    pass: &mut AudioPass<C, N>,
    audio: &mut A,
    commands: &[BlockCommand],
    number: u64,
    report: &mut AudioReport,
) -> BlockEnd
    requires commands { All (λ command. IsCommand (block_command command)) commands.now }
    requires numbers { length pass.old.made + length (acts_in number commands.now) < 2 ^ 60 }
    requires room { (length report.old.reads.items < vec_capacity report.old.reads)
        × (length report.old.plays.items < vec_capacity report.old.plays) }
    requires room_for_commits { length report.old.commits.items + length (acts_in number commands.now) ≤ vec_capacity report.old.commits }
    ensures run { (first : AudioView) (told : Option AudioContents)
        → IsPlaying commands.now number first pass.old told (A.seen audio.old).told
        report.old.reads.items report.old.commits.items (map (λ clicks. clicks.items) report.old.plays.items)
        → AfterBlock result commands.now number first pass.new told (A.seen audio.new).told
        report.new.reads.items report.new.commits.items (map (λ clicks. clicks.items) report.new.plays.items) }
    ensures cause { HasBlockCause (A.seen audio.old).faults (A.seen audio.new).faults result }
    ensures capacity { (vec_capacity report.new.reads ≡ vec_capacity report.old.reads)
        × (vec_capacity report.new.commits ≡ vec_capacity report.old.commits)
        × (vec_capacity report.new.plays ≡ vec_capacity report.old.plays) }
{
    let block = match audio.next() {
        Next::Block(block) => block,
        Next::Closed => return BlockEnd::Closed,
        Next::Failed => return BlockEnd::Failed,
    };
    let capture = link.capture_audio(&(), pass);
    report.reads.push_reserved(capture);
    let clicks = capture.shown.clicks(block);
    match audio.play(&clicks) {
        Played::Done => {}
        Played::Failed => return BlockEnd::Failed,
    }
    report.plays.push_reserved(clicks);
    commit_block(
        link,
        pass,
        capture,
        block.start,
        commands,
        number,
        &mut report.commits,
    );
    BlockEnd::Played
}

// Makes the commits of the commands of a block at its start, each on top of those before it. Waits: no. Memory: none.
fn commit_block<C: StateCell<11, Way = ()>, N: LinkName>(
    link: &Link<C, N>,
    pass: &mut AudioPass<C, N>,
    capture: Capture,
    start: i64,
    commands: &[BlockCommand],
    number: u64,
    commits: &mut Vec<Commit>,
)
    requires moment { IsMoment start }
    requires commands { All (λ command. IsCommand (block_command command)) commands.now }
    requires numbers { length pass.old.made + length (acts_in number commands.now) < 2 ^ 60 }
    requires room { length commits.old.items + length (acts_in number commands.now) ≤ vec_capacity commits.old }
    requires shown { IsShownWith capture pass.old.made }
    requires tidy { IsTidyState capture.state × IsTidyState capture.shown }
    ensures committed { HasCommitted start number commands.now capture.state pass.old pass.new commits.old.items commits.new.items }
    ensures capacity { vec_capacity commits.new ≡ vec_capacity commits.old }
{
    let mut capture = capture;
    for command in commands {
        commit_one(link, pass, &mut capture, start, *command, number, commits);
    }
}

// Makes the commit of a command, where it is one of this block, and shows it. Waits: no. Memory: none.
fn commit_one<C: StateCell<11, Way = ()>, N: LinkName>(
    link: &Link<C, N>,
    pass: &mut AudioPass<C, N>,
    capture: &mut Capture,
    start: i64,
    command: BlockCommand,
    number: u64,
    commits: &mut Vec<Commit>,
)
    requires moment { IsMoment start }
    requires act { IsAct command.act }
    requires numbers { length pass.old.made + length (acts_in number (command ∷ [])) < 2 ^ 60 }
    requires room { length commits.old.items + length (acts_in number (command ∷ [])) ≤ vec_capacity commits.old }
    requires shown { IsShownWith capture.old pass.old.made }
    requires tidy { IsTidyState capture.old.state × IsTidyState capture.old.shown }
    ensures committed { HasCommitted start number (command ∷ []) capture.old.state pass.old pass.new
        commits.old.items commits.new.items }
    ensures shown { IsShownWith capture.new pass.new.made }
    ensures state { capture.new.state ≡ capture.old.state }
    ensures tidy { IsTidyState capture.new.shown }
    ensures capacity { vec_capacity commits.new ≡ vec_capacity commits.old }
{
    if command.block == number {
        let commit = commit_of(command.act, start, capture);
        let made = link.commit_audio(&(), pass, &commit);
        commits.push_reserved(commit);
        capture.shown = with_own(made, commit, &capture.state);
    }
}

// What is shown of a state once this commit of that number was made.
fn with_own(number: u64, commit: Commit, state: &State) -> State
    requires tidy { IsTidyState state.now }
    requires tidy_commit { IsTidyCommit commit }
    ensures value { result ≡ shown_over (Some (number, commit)) state.now.audio state.now }
    ensures tidy { IsTidyState result }
{
    let own = Own {
        last: Some((number, commit)),
    };
    shown(&own, state.audio, state)
}
