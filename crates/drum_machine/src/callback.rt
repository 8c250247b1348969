//! What an author writes for the audio thread: the audio callback, and an edit of its own. Neither waits, takes memory or formats text.

ghost use Rattle.std.specs.Prelude.{◌≡◌, ◌+◌, ◌<◌, ◌^◌, length};
ghost use Rattle.lk_base.specs.Ranges.{IsMoment};
ghost use Rattle.client_state.specs.Commit.{commit_between};
ghost use Rattle.client_state.specs.State.{IsTidyState};
ghost use Rattle.link_midi.specs.Events.{events_of, running_after};
ghost use Rattle.link_shared.specs.Audio.{HasReadAudio, after_making};
ghost use Rattle.step_sequencer.specs.Sound.{sounds_from, ages_from};
ghost use Rattle.drum_machine.specs.Callback.{block_from, changed_by};

use audio_handoff::StateCell;
use client_state::{Commit, State};
use link_midi::{MidiClock, MidiEvents};
use link_shared::{AudioPass, Capture, Link, LinkName};
use lk_base::Block;
use step_sequencer::{Kit, Pattern, Samples, frame_time};

/// How many frames a block has, of which 48,000 are a second.
pub const FRAMES: u32 = 960;

/// How long a block is, in microseconds.
pub const BLOCK_LENGTH: i64 = 20_000;

/// The length of a bar, in microbeats: that of a pattern.
pub const QUANTUM: i64 = 4_000_000;

/// What the audio thread has of its own.
#[derive(Drop)]
pub struct Drums {
    pub pattern: Pattern,
    pub kit: Kit,
    pub clock: MidiClock,
    /// The host time of frame 0, in microseconds.
    pub origin: i64,
}

impl Drums {
    ghost use Rattle.std.specs.Prelude.{◌≡◌, false};
    ghost use Rattle.step_sequencer.specs.Sound.{silent};

    /// Drums that have not been struck yet.
    pub fn new(pattern: Pattern, origin: i64) -> Drums
        ensures given { (result.pattern ≡ pattern) × (result.origin ≡ origin) }
        ensures still { (result.kit ≡ silent) × (result.clock ≡ false) }
    {
        Drums {
            pattern,
            kit: Kit::new(),
            clock: MidiClock::new(),
            origin,
        }
    }
}

/// The audio callback, for the block that begins with the frame `first`: it captures one state, and gives the sound and the MIDI clock of
/// what that shows, in place of what the buffers held.
///
/// Waits: no. Memory: none.
pub fn callback<C: StateCell<11, Way = ()>, N: LinkName>(
    link: &Link<C, N>,
    pass: &mut AudioPass<C, N>,
    drums: &mut Drums,
    first: u32,
    samples: &mut Samples,
    midi: &mut MidiEvents,
) -> Capture
    requires origin { IsMoment drums.old.origin }
    requires first { first + 960 < 2 ^ 31 }
    ensures read { HasReadAudio pass.old pass.new result.number result.state result.shown }
    ensures tidy { IsTidyState result.shown }
    ensures sounds { samples.new.items ≡ sounds_from drums.old.pattern result.shown drums.old.origin drums.old.kit first 960 }
    ensures kit { drums.new.kit ≡ ages_from drums.old.pattern result.shown drums.old.origin drums.old.kit first 960 }
    ensures events { midi.new.items ≡ events_of result.shown drums.old.clock (block_from drums.old.origin first) }
    ensures clock { drums.new.clock ≡ running_after result.shown drums.old.clock (block_from drums.old.origin first) }
    ensures stays { (drums.new.pattern ≡ drums.old.pattern) × (drums.new.origin ≡ drums.old.origin) }
{
    let capture = link.capture_audio(&(), pass);
    let Drums {
        pattern,
        kit,
        clock,
        origin,
    } = drums;
    kit.block(pattern, &capture.shown, *origin, first, FRAMES, samples);
    let block = Block {
        start: frame_time(*origin, first),
        length: BLOCK_LENGTH,
    };
    clock.block_into(&capture.shown, block, midi);
    capture
}

/// What the audio thread changes of its session.
#[derive(Clone, Copy, Debug, PartialEq, Eq)]
pub enum Change {
    /// It plays, from beat 0: that is at the moment where it has no peer, and with peers where a bar of theirs begins next.
    Play,
    /// Its tempo is so many microseconds per beat.
    Tempo(i64),
}

/// Commits a change of what a capture shows, as of a moment. The next capture shows it at once, unless the node has taken it by then: that
/// shows what the node made of it.
///
/// Waits: no. Memory: none.
pub fn edit<C: StateCell<11, Way = ()>, N: LinkName>(
    link: &Link<C, N>,
    pass: &mut AudioPass<C, N>,
    capture: &Capture,
    change: Change,
    at: i64,
)
    requires tidy { IsTidyState capture.now.shown }
    requires moment { IsMoment at }
    requires room { length pass.old.made + 1 < 2 ^ 60 }
    ensures { pass.new ≡ after_making pass.old
        (commit_between capture.now.state capture.now.shown (changed_by change at capture.now.shown) at) }
{
    let edited = changed(&capture.shown, change, at);
    let commit = Commit::between(&capture.state, &capture.shown, &edited, at);
    let _number = link.commit_audio(&(), pass, &commit);
}

fn changed(shown: &State, change: Change, at: i64) -> State
    requires tidy { IsTidyState shown.now }
    requires moment { IsMoment at }
    ensures value { result ≡ changed_by change at shown.now }
    ensures tidy { IsTidyState result }
{
    let mut edited = *shown;
    match change {
        Change::Play => {
            edited.request_beat(0, at, QUANTUM);
            edited.set_playing(true, at);
        }
        Change::Tempo(mpb) => edited.set_tempo(mpb, at),
    }
    edited
}
