//! What holds of the definitions: each law is the contract of a function with an empty body.

ghost use Rattle.std.specs.Prelude.{◌≡◌, ℕ, ◌+◌, ℤ, pos, ◌+ℤ◌, ◌-ℤ◌, ◌≤ℤ◌, All, Bool, List, ◌∷◌, ◌++◌, count_by};
ghost use Rattle.lk_base.specs.Timeline.{IsTidy};
ghost use Rattle.lk_base.specs.declared.timeline.Timeline.{Timeline};
ghost use Rattle.client_state.specs.declared.state.State.{State};
ghost use Rattle.link_midi.specs.Events.{Part, all_events_of, event, events_of, running_after, span};
ghost use Rattle.link_midi.specs.Messages.{IsMessage, is_clock};
ghost use Rattle.link_midi.specs.Pairs.{BeginWithContinue, EndWithPosition};
ghost use Rattle.link_midi.specs.Pulse.{IsPulse, pulse_of};
ghost use Rattle.link_midi.specs.declared.message.MidiEvent.{MidiEvent};
ghost use Rattle.link_midi.specs.declared.message.MidiMessage.TheVariants.{Continue, Position};

/// Each time has exactly one pulse.
pub fn one_pulse()
    ensures there { (tl : Timeline) (time : ℤ) → IsPulse tl time (pulse_of tl time) }
    ensures one { (tl : Timeline) (time p : ℤ) → IsPulse tl time p → p ≡ pulse_of tl time }
{}

/// In a microsecond at most one pulse is passed, so that a clock is sent at most once in it.
pub fn pulses_are_single()
    ensures low { (tl : Timeline) (time : ℤ) → IsTidy tl → pulse_of tl (time -ℤ pos 1) ≤ℤ pulse_of tl time }
    ensures high { (tl : Timeline) (time : ℤ) → IsTidy tl → pulse_of tl time ≤ℤ (pulse_of tl (time -ℤ pos 1) +ℤ pos 1) }
{}

/// A block that is cut in two gives the same events with the same state, and leaves the clock the same.
pub fn a_cut_changes_nothing()
    ensures events { (state : State) (running : Bool) (start : ℤ) (n m : ℕ) → events_of state running (span start (n + m))
        ≡ events_of state running (span start n)
        ++ events_of state (running_after state running (span start n)) (span (start +ℤ pos n) m) }
    ensures running { (state : State) (running : Bool) (start : ℤ) (n m : ℕ) → running_after state running (span start (n + m))
        ≡ running_after state (running_after state running (span start n)) (span (start +ℤ pos n) m) }
{}

/// In any span of time there are just as many clocks as pulses are passed, whatever starts and stops in it. So between a start, which is
/// sent right before the clock of its own pulse, and the next stop a listener counts the pulses of the timeline.
pub fn each_pulse_has_a_clock()
    ensures { (state : State) (running : Bool) (start : ℤ) (n : ℕ) → IsTidy state.timeline
        → (pulse_of state.timeline (start -ℤ pos 1) +ℤ pos (count_by is_clock (events_of state running (span start n))))
        ≡ pulse_of state.timeline (start +ℤ pos n -ℤ pos 1) }
{}

/// A continue stands right behind the song position at which it goes on, of the same microsecond, and a song position right before its
/// continue.
pub fn a_continue_follows_its_position()
    ensures behind { (running : Bool) (parts : List Part) (before after : List MidiEvent) (time : ℤ)
        → all_events_of running parts ≡ before ++ event time Continue ∷ after → EndWithPosition before time }
    ensures before { (running : Bool) (parts : List Part) (before after : List MidiEvent) (time : ℤ) (sixteenths : ℕ)
        → all_events_of running parts ≡ before ++ event time (Position sixteenths) ∷ after → BeginWithContinue after time }
{}

/// Each message that is sent has bytes: a position is below 16,384.
pub fn positions_are_short()
    ensures { (running : Bool) (parts : List Part) → All (λ event. IsMessage event.message) (all_events_of running parts) }
{}
