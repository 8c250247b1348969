//! The loop of the audio thread: for each block that the device asks for, the callback, and what it gave written down.

ghost use Rattle.std.specs.Prelude.{◌≡◌, ◌+◌, ◌<◌, ◌^◌, ◌⊎◌, All, length, IfSome, IfNone};
ghost use Rattle.std.specs.Bool.{OnTrue, OnFalse};
ghost use Rattle.lk_base.specs.Ranges.{IsMoment};
ghost use Rattle.lk_outside.specs.Audio.{GivesBlock};
ghost use Rattle.lk_outside.specs.Contents.{BothTell};
ghost use Rattle.lk_outside.specs.Faults.{Rose};
ghost use Rattle.lk_outside.specs.Sink.{Appends};
ghost use Rattle.lk_outside.specs.Transfer.{AppendsPrefix};
ghost use Rattle.link_midi.specs.Messages.{IsMessage};
ghost use Rattle.step_sequencer.specs.Wav.{samples_bytes};
ghost use Rattle.drum_machine.specs.Player.{BeginsAt, CanPlay, HasCutBlock, HasPlayed, HasPlayedBlock, HasStarted, IsPlayed, start_from};
ghost use Rattle.drum_machine.specs.Written.{AppendsFront, midi_line_of, midi_lines_of};
ghost use Rattle.drum_machine.specs.Ends.{HasPlayCause, HasNoMore, counted};

use crate::callback::{Change, Drums, FRAMES, callback, edit};
use arrayvec::ArrayVec;
use audio_handoff::StateCell;
use link_lines::{LineBuf, put, put_short_hex, put_signed};
use link_midi::{MidiEvent, MidiEvents, positions_are_short};
use link_shared::{AudioPass, Link, LinkName};
use lk_base::{Block, MOMENT_MAX};
use lk_outside::{Audio, Next, Sink, write_whole};
use step_sequencer::{Samples, put_samples, wav_header};

// Half of a frame, in microseconds.
const HALF_FRAME: i64 = 10;

/// How the audio thread's loop ended.
#[derive(Clone, Copy, Debug, PartialEq, Eq)]
pub enum PlayEnd {
    /// All blocks were played.
    Played,
    /// The device failed, or asked for no more.
    Device,
    /// Sound or MIDI could not be written.
    Output,
}

/// Plays so many blocks of the device, which follow on each other, and writes their sound to `sound` as a WAV and their MIDI clock to
/// `midi`. Frame 0 is where the first block begins; as of there it starts to play, from beat 0, if nobody plays yet.
///
/// Waits: in the device and in the sinks, never in the callback. Memory: none.
pub fn play<C: StateCell<11, Way = ()>, N: LinkName, A: Audio, W: Sink, M: Sink>(
    link: &Link<C, N>,
    pass: &mut AudioPass<C, N>,
    drums: &mut Drums,
    blocks: u32,
    audio: &mut A,
    sound: &mut W,
    midi: &mut M,
) -> PlayEnd
    requires ready { CanPlay pass.old drums.old.origin blocks }
    ensures played { HasPlayed pass.old pass.new }
    ensures written { IsPlayed blocks drums.old.pattern drums.old.kit drums.old.clock (A.seen audio.old).told (A.seen audio.new).told pass.old pass.new
        (W.seen sound.old).told (W.seen sound.new).told (M.seen midi.old).told (M.seen midi.new).told result }
    ensures cause { HasPlayCause (counted (A.seen audio.old).faults (W.seen sound.old).faults (M.seen midi.old).faults)
        (counted (A.seen audio.new).faults (W.seen sound.new).faults (M.seen midi.new).faults) (A.seen audio.new).told result }
{
    if !write_whole(sound, &wav_header(blocks * FRAMES)) {
        return PlayEnd::Output;
    }
    let Some(block) = next_block(audio) else {
        return PlayEnd::Device;
    };
    drums.origin = block.start;
    start(link, pass, start_at(block.start));
    let mut sheet = Sheet::new();
    let mut number = 0;
    while number < blocks {
        if !play_block(link, pass, drums, number * FRAMES, &mut sheet, sound, midi) {
            return PlayEnd::Output;
        }
        number += 1;
        // The next block begins where this one has been played.
        let Some(_) = next_block(audio) else {
            return PlayEnd::Device;
        };
    }
    PlayEnd::Played
}

// The device's next block, if it gives one. Waits: in the device. Memory: none.
fn next_block<A: Audio>(audio: &mut A) -> Option<Block>
    ensures some { IfSome result (λ block. IsMoment block.start × ((A.seen audio.new).faults ≡ (A.seen audio.old).faults)) }
    ensures begins { IfSome result (λ block. BeginsAt (A.seen audio.old).told block.start) }
    ensures given { IfSome result (λ block. BothTell (GivesBlock block) (A.seen audio.old).told (A.seen audio.new).told) }
    ensures stays { IfNone result ((A.seen audio.new).told ≡ (A.seen audio.old).told) }
    ensures none { IfNone result (HasNoMore (counted (A.seen audio.old).faults 0 0) (counted (A.seen audio.new).faults 0 0) (A.seen audio.new).told) }
{
    match audio.next() {
        Next::Block(block) => Some(block),
        Next::Closed => None,
        Next::Failed => None,
    }
}

// Plays the block that begins with the frame `first`: the callback, and what it gave written down. Answers whether it was written.
// Waits: in the sinks. Memory: none.
fn play_block<C: StateCell<11, Way = ()>, N: LinkName, W: Sink, M: Sink>(
    link: &Link<C, N>,
    pass: &mut AudioPass<C, N>,
    drums: &mut Drums,
    first: u32,
    sheet: &mut Sheet,
    sound: &mut W,
    midi: &mut M,
) -> bool
    requires origin { IsMoment drums.old.origin }
    requires first { first + 960 < 2 ^ 31 }
    ensures played { HasPlayed pass.old pass.new }
    ensures stays { (drums.new.pattern ≡ drums.old.pattern) × (drums.new.origin ≡ drums.old.origin) × (pass.new.made ≡ pass.old.made) }
    ensures block { OnTrue result (HasPlayedBlock first drums.old drums.new pass.old pass.new
        (W.seen sound.old).told (W.seen sound.new).told (M.seen midi.old).told (M.seen midi.new).told) }
    ensures cut { OnFalse result (HasCutBlock first drums.old pass.old pass.new
        (W.seen sound.old).told (W.seen sound.new).told (M.seen midi.old).told (M.seen midi.new).told) }
    ensures works { OnTrue result (((W.seen sound.new).faults ≡ (W.seen sound.old).faults) × ((M.seen midi.new).faults ≡ (M.seen midi.old).faults)) }
    ensures fails { OnFalse result (Rose (W.seen sound.old).faults (W.seen sound.new).faults ⊎ Rose (M.seen midi.old).faults (M.seen midi.new).faults) }
{
    // A law, for the proof: what the callback gives are messages that have bytes.
    positions_are_short();
    let (samples, events) = (&mut sheet.samples, &mut sheet.events);
    callback(link, pass, drums, first, samples, events);
    sheet.write(sound, midi)
}

// Where it starts whose first block begins at a moment: in the middle of frame 0. So the step of beat 0 begins in that frame, though beats
// are whole microbeats and times whole microseconds; and the start is later than the node's opening, else peers aren't told of it.
fn start_at(begins: i64) -> i64
    requires { IsMoment begins }
    ensures moment { IsMoment result }
    ensures value { result ≡ start_from begins }
{
    (begins + HALF_FRAME).min(MOMENT_MAX)
}

// Starts to play as of a moment, if nobody plays yet. Waits: no. Memory: none.
fn start<C: StateCell<11, Way = ()>, N: LinkName>(
    link: &Link<C, N>,
    pass: &mut AudioPass<C, N>,
    at: i64,
)
    requires moment { IsMoment at }
    requires room { length pass.old.made + 1 < 2 ^ 60 }
    ensures played { HasPlayed pass.old pass.new }
    ensures started { HasStarted at pass.old pass.new }
{
    let capture = link.capture_audio(&(), pass);
    if capture.shown.start.playing {
        return;
    }
    edit(link, pass, &capture, Change::Play, at);
}

/// What the callback gave of a block, and room to write it.
#[derive(Drop)]
struct Sheet {
    samples: Samples,
    events: MidiEvents,
    bytes: ArrayVec<u8, 1920>,
    line: LineBuf,
}

impl Sheet {
    fn new() -> Sheet {
        Sheet {
            samples: Samples::new(),
            events: MidiEvents::new(),
            bytes: ArrayVec::new(),
            line: LineBuf::new(),
        }
    }

    // Writes the sound, and a line for each MIDI event. Answers whether both went out. Waits: in the sinks. Memory: none.
    fn write<W: Sink, M: Sink>(&mut self, sound: &mut W, midi: &mut M) -> bool
        requires messages { All (λ event. IsMessage event.message) self.old.events.items }
        ensures sound { OnTrue result (Appends (W.seen sound.old).told (samples_bytes self.old.samples.items) (W.seen sound.new).told) }
        ensures midi { OnTrue result (Appends (M.seen midi.old).told (midi_lines_of self.old.events.items) (M.seen midi.new).told) }
        ensures front { OnFalse result (AppendsFront (samples_bytes self.old.samples.items) (midi_lines_of self.old.events.items)
            (W.seen sound.old).told (W.seen sound.new).told (M.seen midi.old).told (M.seen midi.new).told) }
        ensures works { OnTrue result (((W.seen sound.new).faults ≡ (W.seen sound.old).faults) × ((M.seen midi.new).faults ≡ (M.seen midi.old).faults)) }
        ensures fails { OnFalse result (Rose (W.seen sound.old).faults (W.seen sound.new).faults ⊎ Rose (M.seen midi.old).faults (M.seen midi.new).faults) }
    {
        put_samples(&self.samples, &mut self.bytes);
        if !write_whole(sound, &self.bytes) {
            return false;
        }
        write_lines(self.events.as_slice(), &mut self.line, midi)
    }
}

// Writes a line for each MIDI event. Answers whether all went out. Waits: in the sink. Memory: none.
fn write_lines<M: Sink>(events: &[MidiEvent], line: &mut LineBuf, midi: &mut M) -> bool
    requires { All (λ event. IsMessage event.message) events.now }
    ensures lines { OnTrue result (Appends (M.seen midi.old).told (midi_lines_of events.now) (M.seen midi.new).told) }
    ensures part { OnFalse result (AppendsPrefix (M.seen midi.old).told (midi_lines_of events.now) (M.seen midi.new).told) }
    ensures works { OnTrue result ((M.seen midi.new).faults ≡ (M.seen midi.old).faults) }
    ensures fails { OnFalse result (Rose (M.seen midi.old).faults (M.seen midi.new).faults) }
{
    for event in events {
        put_midi(line, event);
        if !write_whole(midi, line.as_slice()) {
            return false;
        }
    }
    true
}

// Puts the line of a MIDI event in place of what the buffer held: its time in microseconds, and its bytes in hex.
#[tactic(auto, unfolding(crate::specs::Written::midi_line_of))]
fn put_midi(line: &mut LineBuf, event: &MidiEvent)
    requires { IsMessage event.now.message }
    ensures { line.new.items ≡ midi_line_of event.now }
{
    line.clear();
    put(line, b"midi ");
    put_signed(line, event.at);
    put(line, b" ");
    put_short_hex(line, event.message.bytes().as_slice());
    put(line, b"\n");
}
