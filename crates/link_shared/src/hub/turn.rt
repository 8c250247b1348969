//! One turn of the hub.
ghost use Rattle.std.specs.Prelude.{◌≡◌, ℕ, ◌<◌, slice_index};

use crate::got::{Got, Turned};
use crate::hub::Hub;
use crate::link::Link;
use crate::name::LinkName;
use crate::queue::{Item, pop_item};
use audio_handoff::StateCell;
use link_node::{Event, Sends, commits_are_counted};
use std::sync::Wait;

impl<C: StateCell<11>, N: LinkName> Hub<C, N> {
    ghost use Rattle.std.specs.Prelude.{◌≡◌, ◌≤◌, ◌+◌, [], length};
    ghost use Rattle.lk_base.specs.Ranges.{IsMoment};
    ghost use Rattle.link_shared.specs.Hub.{HasTurned, IsOnGate, got_events};
    ghost use Rattle.link_shared.specs.Turning.{HasTakenItem, HasTakenAudio, HasOffered};

    /// Clears `sends` and makes one turn: it pops at most one item of the applications' queue and offers a popped commit to the
    /// machine, reads the audio thread's cell once and offers the commit there where its number is greater than that of the last
    /// one taken, and then offers what it was given. Each of these events carries the moment `now`, in microseconds. One that is
    /// taken stands in the journal, its datagrams in `sends`, and a state that it publishes in both cells. That the queue was
    /// empty where nothing was popped is tested, and not said by a clause: other threads push.
    ///
    /// Waits: for a place's last user in the queue, and by the way. Memory: none.
    pub fn turn<R: Wait>(
        &mut self,
        rt: &R,
        link: &Link<C, N>,
        way: &C::Way,
        now: i64,
        got: Got,
        sends: &mut Sends,
    ) -> Turned
        requires moment { IsMoment now }
        requires gate { IsOnGate (length self.old.config.gates) got }
        ensures turned { HasTurned self.old self.new now got sends.new result.quit result.full }
    {
        sends.clear();
        let first = self.take_item(rt, link, way, now, sends);
        let second = self.take_audio(link, way, now, sends);
        let third = self.take_got(link, way, now, got, sends);
        Turned {
            quit: first.quit,
            full: first.full | second | third,
        }
    }

    // Pops at most one item of the applications' queue, and offers a commit.
    // Waits: for a place's last user in the queue, and by the way. Memory: none.
    fn take_item<R: Wait>(
        &mut self,
        rt: &R,
        link: &Link<C, N>,
        way: &C::Way,
        now: i64,
        sends: &mut Sends,
    ) -> Turned
        requires moment { IsMoment now }
        requires room { length sends.old + 129 ≤ 160 }
        ensures taken { HasTakenItem self.old self.new now sends.old sends.new result.quit result.full }
    {
        // A law, for the proof: a commit of an application leaves the number of the last audio commit.
        commits_are_counted();
        match pop_item(rt, &link.queue, &mut self.pass) {
            Some(Item::Commit(commit)) => {
                let full = self.keeper.offer_app(
                    &link.app_states,
                    &link.audio_states,
                    way,
                    commit,
                    now,
                    sends,
                );
                Turned { quit: false, full }
            }
            Some(Item::Quit) => Turned {
                quit: true,
                full: false,
            },
            None => Turned {
                quit: false,
                full: false,
            },
        }
    }

    // Reads the audio thread's cell once, and offers the commit there where its number is greater than that of the last one
    // taken. Answers whether the journal was full. Waits: by the way. Memory: none.
    fn take_audio(&mut self, link: &Link<C, N>, way: &C::Way, now: i64, sends: &mut Sends) -> bool
        requires moment { IsMoment now }
        requires room { length sends.old + 129 ≤ 160 }
        ensures taken { HasTakenAudio self.old self.new now sends.old sends.new result }
    {
        let read = link.audio_commits.read(way, &mut self.commits);
        self.keeper.offer_audio(&link.app_states, &link.audio_states, way, &read, now, sends)
    }

    // Offers what the turn was given. Answers whether the journal was full. Waits: by the way. Memory: none.
    fn take_got(
        &mut self,
        link: &Link<C, N>,
        way: &C::Way,
        now: i64,
        got: Got,
        sends: &mut Sends,
    ) -> bool
        requires moment { IsMoment now }
        requires gate { IsOnGate (length self.old.config.gates) got }
        requires room { length sends.old + 129 ≤ 160 }
        ensures taken { HasOffered self.old self.new (got_events now got) sends.old sends.new result }
    {
        match got {
            Got::Nothing => false,
            Got::Datagram { gate, from, bytes } => {
                are_bytes(&bytes);
                let event = Event::Rx {
                    gate,
                    from,
                    bytes,
                    now,
                };
                self.keeper
                    .offer(&link.app_states, &link.audio_states, way, event, sends)
            }
            Got::Tick => {
                let event = Event::Tick { now };
                self.keeper
                    .offer(&link.app_states, &link.audio_states, way, event, sends)
            }
            Got::End => {
                let event = Event::End { now };
                self.keeper
                    .offer(&link.app_states, &link.audio_states, way, event, sends)
            }
        }
    }
}

// What a slice of bytes holds is bytes.
fn are_bytes(bytes: &[u8])
    ensures { (i : ℕ) → slice_index bytes.now i < 256 }
{}
