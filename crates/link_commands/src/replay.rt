//! The command `replay`: what a node sends and shows for the events of a script.

ghost use Rattle.std.specs.Prelude.{◌≡◌};
ghost use Rattle.link_commands.specs.Statuses.{EndsReplay, IfNothingWritten, replay_command};

use crate::counts::Counts;
use crate::opened_script::open_script;
use crate::outlet::{Outlet, SinkFailed};
use crate::replay_lines::{hand_done, hand_published, hand_sends, hand_state};
use crate::run_text::read_and_answer;
use crate::status::{Grammar, Status};
use crate::text_command::TextCommand;
use crate::text_fault::TextFault;
use link_node::{Event, Node, Sends};
use link_text::{LineBuf, next_event, scripts_fit_nodes};
use link_words::{CommandName, is_only};
use lk_outside::{Sink, Source};
use std::alloc::Global;

/// Replays the script on `input`: reads and checks it whole, and then writes to `out` the opening state, for each event the
/// datagrams that the node sends and the state that it publishes, and how much there was. Nothing is written unless the whole
/// script is in the grammar.
///
/// Waits: in the objects' calls alone. Memory: the text, the node, its list of datagrams and the outlet, all of it before the first write.
pub fn replay_main<S: Source, K: Sink>(
    alloc: Global,
    words: &[String],
    input: &mut S,
    out: &mut K,
) -> Status
    ensures ends { EndsReplay words.now
        (S.seen input.old) (S.seen input.new)
        (K.seen out.old) (K.seen out.new) result }

    // No object is called, or the sink isn't.
    ensures untouched { result ≡ Status.Words → (input.new ≡ input.old) × (out.new ≡ out.old) }
    ensures unwritten { IfNothingWritten result (out.new ≡ out.old) }
{
    if !is_only(words, CommandName::Replay) {
        return Status::Words;
    }
    read_and_answer::<Replay, S, K>(alloc, &(), input, out)
}

/// A script that was checked, and the node that its head opens.
#[derive(Drop)]
struct Replay {
    // The script's version, which says how much is told of a state.
    version: u8,
    node: Node,
    // What follows from one event.
    sends: Sends,
    // Where the lines of the events begin.
    first: usize,
}

impl TextCommand for Replay {
    ghost use Rattle.link_commands.specs.Replaying.{IsNodeOpened};

    type Params = ();

    ghost command = { λ params. replay_command };

    ghost ready = { λ params replay text. IsNodeOpened replay.node replay.version text replay.first };

    fn limit(_params: &()) -> usize {
        1_073_741_824
    }

    fn grammar(_params: &()) -> Grammar {
        Grammar::ReplayScript
    }

    fn check(alloc: Global, _params: &(), text: &[u8]) -> Result<Self, TextFault> {
        let script = open_script(alloc, text)?;
        Ok(Replay {
            version: script.version,
            node: script.node,
            sends: script.sends,
            first: script.first,
        })
    }

    fn hand<K: Sink>(
        &mut self,
        _params: &(),
        text: &[u8],
        outlet: &mut Outlet,
        out: &mut K,
    ) -> Result<(), SinkFailed> {
        // A law, for the proof: a script has no more events than bytes.
        scripts_fit_nodes();
        let mut line = LineBuf::new();
        hand_state(self.version, 0, &self.node.state(), &mut line, outlet, out)?;
        let counts = self.hand_events(text, &mut line, outlet, out)?;
        hand_done(&counts, &mut line, outlet, out)?;
        Ok(())
    }
}

impl Replay {
    ghost use Rattle.std.specs.Prelude.{◌≡◌, ◌≤◌, ◌<◌, ◌+◌, ◌*◌, ◌^◌, ℕ, List, length, IfOk, OnOk, OnErr};
    ghost use Rattle.lk_outside.specs.Faults.{Rose};
    ghost use Rattle.link_node.specs.Event.{EventValue, Fits, app_after, audio_after, event_value};
    ghost use Rattle.link_node.specs.Machine.{Machine};
    ghost use Rattle.link_node.specs.Runs.{published_by, sent_by};
    ghost use Rattle.link_node.specs.Standing.{StandsFor, app_of, audio_of, gates_of};
    ghost use Rattle.link_node.specs.Step.{sends_of, step_of};
    ghost use Rattle.link_text.specs.ReplayText.{event_text_of, events_text_of, published_in};
    ghost use Rattle.link_commands.specs.Outlet.{HandsOver, HandsPart};
    ghost use Rattle.link_commands.specs.Replaying.{NodeGoesOn};

    // Hands over what follows from each event, and says how much there was with the opening state.
    fn hand_events<K: Sink>(
        &mut self,
        text: &[u8],
        line: &mut LineBuf,
        outlet: &mut Outlet,
        out: &mut K,
    ) -> Result<Counts, SinkFailed>
        requires short { length text.now ≤ 1_073_741_824 }
        requires says { (m : Machine) × (es : List EventValue) × NodeGoesOn self.old.node text.now self.old.first m es }
        ensures events { IfOk result (λ counts. (m : Machine) (es : List EventValue)
            → NodeGoesOn self.old.node text.now self.old.first m es
            → (counts.events ≡ length es) × ((counts.states ≡ 1 + length (published_by m es)) × (counts.sends ≡ length (sent_by m es)))) }
        ensures kept { OnOk result ((m : Machine) (es : List EventValue)
            → NodeGoesOn self.old.node text.now self.old.first m es
            → HandsOver (events_text_of self.old.version m 1 es) (K.seen out.old).told outlet.old.kept.items (K.seen out.new).told outlet.new.kept.items) }
        ensures part { OnErr result ((m : Machine) (es : List EventValue)
            → NodeGoesOn self.old.node text.now self.old.first m es
            → HandsPart (events_text_of self.old.version m 1 es) (K.seen out.old).told outlet.old.kept.items (K.seen out.new).told) }
        ensures quiet { OnOk result ((K.seen out.new).faults ≡ (K.seen out.old).faults) }
        ensures cause { OnErr result (Rose (K.seen out.old).faults (K.seen out.new).faults) }
    {
        // A law, for the proof: the node can take the events of a script.
        scripts_fit_nodes();
        let mut counts = Counts {
            events: 0,
            states: 1,
            sends: 0,
        };
        let mut at = self.first;
        while let Some(event) = next_event(text, &mut at) {
            self.hand_event(&event, &mut counts, line, outlet, out)?;
        }
        Ok(counts)
    }

    // Takes one event, and hands over what follows from it.
    fn hand_event<K: Sink>(
        &mut self,
        event: &Event,
        counts: &mut Counts,
        line: &mut LineBuf,
        outlet: &mut Outlet,
        out: &mut K,
    ) -> Result<(), SinkFailed>
        requires event { Fits (gates_of self.old.node) (app_of self.old.node) (audio_of self.old.node) (event_value event.now) }
        requires few_events { counts.old.events < 2 ^ 32 }
        requires few_states { counts.old.states < 2 ^ 32 }
        requires few_sends { counts.old.sends < 2 ^ 40 }
        ensures version { self.new.version ≡ self.old.version }
        ensures stands { (m : Machine) → StandsFor self.old.node m → StandsFor self.new.node (step_of m (event_value event.now)) }
        ensures gates { gates_of self.new.node ≡ gates_of self.old.node }
        ensures app { app_of self.new.node ≡ app_after (app_of self.old.node) (event_value event.now) }
        ensures audio { audio_of self.new.node ≡ audio_after (audio_of self.old.node) (event_value event.now) }
        ensures events { OnOk result (counts.new.events ≡ counts.old.events + 1) }
        ensures states { OnOk result ((m : Machine) → StandsFor self.old.node m
            → counts.new.states ≡ counts.old.states + length (published_in m (event_value event.now))) }
        ensures sends { OnOk result ((m : Machine) → StandsFor self.old.node m
            → counts.new.sends ≡ counts.old.sends + length (sends_of m (event_value event.now))) }
        ensures few { OnOk result ((counts.new.states ≤ counts.old.states + 1) × (counts.new.sends ≤ counts.old.sends + 129)) }
        ensures kept { OnOk result ((m : Machine) → StandsFor self.old.node m
            → HandsOver (event_text_of self.old.version m counts.old.states (event_value event.now))
            (K.seen out.old).told outlet.old.kept.items (K.seen out.new).told outlet.new.kept.items) }
        ensures part { OnErr result ((m : Machine) → StandsFor self.old.node m
            → HandsPart (event_text_of self.old.version m counts.old.states (event_value event.now))
            (K.seen out.old).told outlet.old.kept.items (K.seen out.new).told) }
        ensures quiet { OnOk result ((K.seen out.new).faults ≡ (K.seen out.old).faults) }
        ensures cause { OnErr result (Rose (K.seen out.old).faults (K.seen out.new).faults) }
    {
        self.sends.clear();
        let change = self.node.step(event, &mut self.sends);
        let sends = self.sends.list();
        hand_sends(event, sends, line, outlet, out)?;
        let shown = hand_published(
            self.version,
            change,
            counts.states,
            &self.node.state(),
            line,
            outlet,
            out,
        )?;
        counts.events += 1;
        counts.states += shown;
        counts.sends += sends.len() as u64;
        Ok(())
    }
}
