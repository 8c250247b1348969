//! The command `midi`: the MIDI clock of a script's node.

ghost use Rattle.std.specs.Prelude.{◌≡◌};
ghost use Rattle.link_commands.specs.Statuses.{EndsMidi, IfNothingWritten, midi_command};

use crate::midi_lines::{hand_blocks_done, hand_midi_events};
use crate::opened_script::{OpenedScript, open_script};
use crate::outlet::{Outlet, SinkFailed};
use crate::replay_lines::moment;
use crate::run_text::read_and_answer;
use crate::status::{Grammar, Status};
use crate::text_command::TextCommand;
use crate::text_fault::TextFault;
use link_midi::{MidiClock, MidiEvents, positions_are_short};
use link_node::runs_go_on;
use link_text::{LineBuf, next_event, scripts_fit_nodes};
use link_words::{MidiNumbers, WordsFault, midi_numbers};
use lk_base::Block;
use lk_outside::{Sink, Source};
use std::alloc::Global;

/// Plays the script on `input` in blocks of one length that adjoin from its opening moment: reads and checks it whole, and then writes to
/// `out` a line for each MIDI event, with its time in microseconds and its bytes in hex, and last how many blocks and events there were. A
/// block is played by the state that was published last when it began. Events of the script that come after the last block's begin aren't
/// taken. Nothing is written unless the whole script is in the grammar.
///
/// Waits: in the objects' calls alone. Memory: what reads the words, the text, the node, its list of datagrams and the outlet, all of it
/// before the first write.
pub fn midi_main<S: Source, K: Sink>(
    alloc: Global,
    words: &[String],
    input: &mut S,
    out: &mut K,
) -> Status
    ensures ends { EndsMidi words.now
        (S.seen input.old) (S.seen input.new)
        (K.seen out.old) (K.seen out.new) result }

    // No object is called, or the sink isn't.
    ensures untouched { result ≡ Status.Words → (input.new ≡ input.old) × (out.new ≡ out.old) }
    ensures unwritten { IfNothingWritten result (out.new ≡ out.old) }
{
    match midi_numbers(alloc, words) {
        Ok(numbers) => read_and_answer::<Midi, S, K>(alloc, &numbers, input, out),
        Err(WordsFault::NotTaken) => Status::Words,
        Err(WordsFault::Memory) => Status::Memory,
    }
}

/// A script that was checked, and the node that its head opens.
#[derive(Drop)]
struct Midi {
    script: OpenedScript,
}

impl TextCommand for Midi {
    ghost use Rattle.link_commands.specs.Replaying.{IsNodeOpenedAt};

    type Params = MidiNumbers;

    ghost command = { λ params. midi_command params.length params.blocks };

    ghost ready = { λ params midi text. IsNodeOpenedAt midi.script.node midi.script.version text midi.script.first midi.script.now };

    fn limit(_params: &MidiNumbers) -> usize {
        1_073_741_824
    }

    fn grammar(_params: &MidiNumbers) -> Grammar {
        Grammar::ReplayScript
    }

    fn check(alloc: Global, _params: &MidiNumbers, text: &[u8]) -> Result<Self, TextFault> {
        Ok(Midi {
            script: open_script(alloc, text)?,
        })
    }

    fn hand<K: Sink>(
        &mut self,
        params: &MidiNumbers,
        text: &[u8],
        outlet: &mut Outlet,
        out: &mut K,
    ) -> Result<(), SinkFailed> {
        // Laws, for the proof: a script has no more events than bytes, a run goes on from where its first events have led, and what a
        // block gives are messages that have bytes.
        scripts_fit_nodes();
        runs_go_on();
        positions_are_short();
        let mut line = LineBuf::new();
        let mut clock = MidiClock::new();
        let mut sent = MidiEvents::new();
        let length = params.length as i64;
        let mut at = self.script.first;
        let mut start = self.script.now;
        let mut blocks: u64 = 0;
        let mut events: u64 = 0;
        while blocks < params.blocks {
            self.take_due(text, &mut at, start);
            let state = self.script.node.state();
            clock.block_into(&state, Block { start, length }, &mut sent);
            hand_midi_events(sent.as_slice(), &mut line, outlet, out)?;
            events += sent.len() as u64;
            start += length;
            blocks += 1;
        }
        hand_blocks_done(blocks, events, &mut line, outlet, out)
    }
}

impl Midi {
    ghost use Rattle.std.specs.Prelude.{◌≡◌, ◌≤ℤ◌, ◌++◌, ◌∷◌, [], List};
    ghost use Rattle.std.specs.Bool.{OnTrue, OnFalse};
    ghost use Rattle.link_node.specs.Event.{EventValue, moment_of};
    ghost use Rattle.link_node.specs.Machine.{Machine};
    ghost use Rattle.link_node.specs.Runs.{machine_after};
    ghost use Rattle.link_node.specs.Step.{step_of};
    ghost use Rattle.link_commands.specs.MidiText.{due_by};
    ghost use Rattle.link_commands.specs.Replaying.{NodeGoesOn};

    // Takes the events that come at or before a time.
    fn take_due(&mut self, text: &[u8], at: &mut usize, time: i64)
        requires { (m : Machine) × (es : List EventValue) × NodeGoesOn self.old.script.node text.now at.old m es }
        ensures { (m : Machine) (es : List EventValue) → NodeGoesOn self.old.script.node text.now at.old m es
            → (rest : List EventValue) × (es ≡ due_by time es ++ rest)
            × NodeGoesOn self.new.script.node text.now at.new (machine_after m (due_by time es)) rest }
    {
        while self.take_next(text, at, time) {}
    }

    // Takes the next event, if it comes at or before a time, and tells whether it did.
    fn take_next(&mut self, text: &[u8], at: &mut usize, time: i64) -> bool
        requires { (m : Machine) × (es : List EventValue) × NodeGoesOn self.old.script.node text.now at.old m es }
        ensures taken { OnTrue result ((m : Machine) (es : List EventValue) → NodeGoesOn self.old.script.node text.now at.old m es
            → (e : EventValue) × (rest : List EventValue) × (es ≡ e ∷ rest) × (moment_of e ≤ℤ time)
            × NodeGoesOn self.new.script.node text.now at.new (step_of m e) rest) }
        ensures none { OnFalse result ((m : Machine) (es : List EventValue) → NodeGoesOn self.old.script.node text.now at.old m es
            → (due_by time es ≡ []) × NodeGoesOn self.new.script.node text.now at.new m es) }
    {
        // A law, for the proof: the node can take the events of a script.
        scripts_fit_nodes();
        let mut next = *at;
        let Some(event) = next_event(text, &mut next) else {
            return false;
        };
        if moment(&event) > time {
            return false;
        }
        self.script.sends.clear();
        self.script.node.step(&event, &mut self.script.sends);
        *at = next;
        true
    }
}
