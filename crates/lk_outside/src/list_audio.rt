//! An audio device in memory.

ghost use Rattle.std.proofs.Props.{props};
ghost use Rattle.std.specs.Prelude.{◌≤◌, All, length};
ghost use Rattle.std.specs.Vec.{vec_capacity};
ghost use Rattle.lk_outside.specs.Audio.{IsBlock};

use crate::copies::copied;
use crate::failing::{NEXT, PLAY, fails_at};
use crate::{Audio, Next, Played};
use lk_base::{Block, Clicks};
use std::alloc::{AllocError, Global};

/// An audio device that holds its blocks and the clicks played, and tells them. It asks for its blocks
/// in order, and then for nothing any more. It counts the calls for its next block and the plays from 1
/// each, and those fail whose numbers are in the list that it was made with; a play fails too where no
/// room is left. No other call fails. Its counts of calls and of faults stay at their type's last value.
#[derive(Debug, Drop)]
pub struct ListAudio {
    blocks: Vec<Block>,
    taken: usize,
    plays: Vec<Clicks>,
    failing: Vec<(u8, u64)>,
    asks: u64,
    tries: u64,
    faults: u64,
    ghost within: { taken ≤ length blocks.items },
    ghost coming: { All IsBlock blocks.items } by { Prim.hlevel props },
    ghost few: { length plays.items ≤ length blocks.items },
    ghost reserved: { length blocks.items ≤ vec_capacity plays },
}

impl ListAudio {
    ghost use Rattle.std.specs.Prelude.{◌≡◌, ◌↔◌, [], length, IfOk};
    ghost use Rattle.lk_outside.specs.ListAudio.{rest_of, given_of, plays_of, contents_of, room_of, failing_of, asks_of, tries_of, faults_of, IsQuietAudio};

    /// A device that asks for `blocks` and has room for as many plays in all. The calls fail whose
    /// pairs of `NEXT` or `PLAY` and their number are in `failing`. The only error is want of memory.
    /// Waits: no. Memory: the room; no other call takes any.
    pub fn new(
        alloc: Global,
        blocks: Vec<Block>,
        failing: Vec<(u8, u64)>,
    ) -> Result<Self, AllocError>
        requires { All IsBlock blocks.items }
        ensures contents { IfOk result (λ audio. contents_of audio
            ≡ record { left = blocks.items; given = []; plays = [] }) }
        ensures room { IfOk result (λ audio. room_of audio ≡ length blocks.items) }
        ensures failing { IfOk result (λ audio. failing_of audio ≡ failing.items) }
        ensures no_asks { IfOk result (λ audio. asks_of audio ≡ 0) }
        ensures no_tries { IfOk result (λ audio. tries_of audio ≡ 0) }
        ensures faultless { IfOk result (λ audio. faults_of audio ≡ 0) }
        ensures quiet { IfOk result (λ audio. IsQuietAudio audio ↔ (failing.items ≡ [])) }
    {
        let room = blocks.len();
        Ok(ListAudio {
            blocks,
            taken: 0,
            plays: Vec::with_capacity(alloc, room)?,
            failing,
            asks: 0,
            tries: 0,
            faults: 0,
        })
    }

    /// The blocks that were not given.
    pub fn rest(&self) -> &[Block]
        ensures { result.now ≡ rest_of self.now }
    {
        &self.blocks[self.taken..]
    }

    /// The blocks given.
    pub fn given(&self) -> &[Block]
        ensures { result.now ≡ given_of self.now }
    {
        &self.blocks[..self.taken]
    }

    /// The clicks of each play so far.
    pub fn plays(&self) -> &[Clicks]
        ensures { result.now ≡ plays_of self.now }
    {
        &self.plays
    }

    /// How many calls have failed.
    pub fn fault_count(&self) -> u64
        ensures { result ≡ faults_of self.now }
    {
        self.faults
    }
}

impl Audio for ListAudio {
    ghost use Rattle.std.specs.Prelude.{◌≡◌, ◌↔◌, ◌⊎◌, ◌+◌, ◌-◌, ◌^◌, ◌<◌, min};
    ghost use Rattle.lk_outside.specs.Failing.{FailsAt};
    ghost use Rattle.lk_outside.specs.Audio.{IsNext, GivesNext, HasNextCause, Plays, HasPlayCause};
    ghost use Rattle.lk_outside.specs.ListAudio.{seen_of, room_of, room_left_of, failing_of, asks_of, next_ask_of, tries_of, next_try_of, faults_of, IsQuietAudio};

    ghost seen = { seen_of };

    fn next(&mut self) -> Next
        ensures answer { IsNext result }
        ensures contents { GivesNext (seen_of self.old).told (seen_of self.new).told result }
        ensures cause { HasNextCause (faults_of self.old) (faults_of self.new) result }

        // Which call for the next block fails.
        ensures failing { (result ≡ Next.Failed)
            ↔ FailsAt (failing_of self.old) 0 (next_ask_of self.old) }

        ensures counted { asks_of self.new ≡ next_ask_of self.old }
        ensures fault { result ≡ Next.Failed
            → faults_of self.new ≡ min (faults_of self.old + 1) (2 ^ 64 - 1) }
        ensures kept_tries { tries_of self.new ≡ tries_of self.old }
        ensures kept_room { room_of self.new ≡ room_of self.old }
        ensures kept_failing { failing_of self.new ≡ failing_of self.old }

        // With an empty list no call for the next block fails.
        ensures quiet { IsQuietAudio self.old → IsQuietAudio self.new }
        ensures works { IsQuietAudio self.old → ¬ (result ≡ Next.Failed) }
    {
        self.asks = self.asks.saturating_add(1);
        if fails_at(&self.failing, NEXT, self.asks) {
            self.faults = self.faults.saturating_add(1);
            return Next::Failed;
        }
        if self.taken == self.blocks.len() {
            return Next::Closed;
        }
        let block = self.blocks[self.taken];
        self.taken += 1;
        Next::Block(block)
    }

    fn play(&mut self, clicks: &Clicks) -> Played
        ensures contents { Plays (seen_of self.old).told (seen_of self.new).told clicks.now.items result }
        ensures cause { HasPlayCause (faults_of self.old) (faults_of self.new) result }

        // Which play fails.
        ensures failing { (result ≡ Played.Failed)
            ↔ (FailsAt (failing_of self.old) 1 (next_try_of self.old)
            ⊎ (room_left_of self.old ≡ 0)) }

        ensures counted { tries_of self.new ≡ next_try_of self.old }
        ensures fault { result ≡ Played.Failed
            → faults_of self.new ≡ min (faults_of self.old + 1) (2 ^ 64 - 1) }
        ensures kept_asks { asks_of self.new ≡ asks_of self.old }
        ensures kept_room { room_of self.new ≡ room_of self.old }
        ensures kept_failing { failing_of self.new ≡ failing_of self.old }

        // With an empty list a play fails only where no room is left.
        ensures quiet { IsQuietAudio self.old → IsQuietAudio self.new }
        ensures works { IsQuietAudio self.old → 0 < room_left_of self.old
            → ¬ (result ≡ Played.Failed) }
    {
        self.tries = self.tries.saturating_add(1);
        let left = self.blocks.len() - self.plays.len();
        if left == 0 || fails_at(&self.failing, PLAY, self.tries) {
            self.faults = self.faults.saturating_add(1);
            return Played::Failed;
        }
        self.plays.push(copied(clicks)).unwrap();
        Played::Done
    }
}
