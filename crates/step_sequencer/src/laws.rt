//! What holds of the definitions: each law is the contract of a function with an empty body.

ghost use Rattle.std.specs.Prelude.{◌≡◌, ◌≢◌, ℕ, ◌+◌, ◌<◌, ◌≤◌, ℤ, pos, ◌+ℤ◌, ◌≤ℤ◌, unsigned_abs, true, List, ◌++◌, map, All, Some};
ghost use Rattle.lk_base.specs.Timeline.{IsTidy};
ghost use Rattle.lk_base.specs.declared.timeline.Timeline.{Timeline};
ghost use Rattle.client_state.specs.declared.state.State.{State};
ghost use Rattle.step_sequencer.specs.Frames.{before, end_of};
ghost use Rattle.step_sequencer.specs.Steps.{IsStep, step_at, plays_at, step_in, struck_from, steps_passed, numbers_from};
ghost use Rattle.step_sequencer.specs.Pattern.{IsPattern, IsFaultAt, spelled_of};
ghost use Rattle.step_sequencer.specs.Sound.{Ages, sounds_from, ages_from};
ghost use Rattle.step_sequencer.specs.declared.pattern.Pattern.{Pattern};

/// Each time has exactly one step.
pub fn one_step()
    ensures there { (tl : Timeline) (time : ℤ) → IsStep tl time (step_at tl time) }
    ensures one { (tl : Timeline) (time n : ℤ) → IsStep tl time n → n ≡ step_at tl time }
{}

/// Steps rise with time, and in 15,000 microseconds, which are more than 700 frames, at most one begins.
pub fn steps_are_single()
    ensures low { (tl : Timeline) (earlier later : ℤ) → IsTidy tl → earlier ≤ℤ later → step_at tl earlier ≤ℤ step_at tl later }
    ensures high { (tl : Timeline) (earlier later : ℤ) → IsTidy tl → later ≤ℤ (earlier +ℤ pos 15_000)
        → step_at tl later ≤ℤ (step_at tl earlier +ℤ pos 1) }
{}

/// While a state plays, the steps that begin in frames are just those that the timeline goes on by, each once and in order. Each begins in
/// its frame, whatever the state does.
pub fn each_step_is_struck_once()
    ensures steps { (state : State) (origin : ℤ) (first count : ℕ) → IsTidy state.timeline → plays_at state (end_of origin first) ≡ true
        → map (λ hit. hit.step) (struck_from state origin first count)
        ≡ numbers_from (step_at state.timeline (before origin first) +ℤ pos 1) (unsigned_abs (steps_passed state.timeline origin first count)) }
    ensures passed { (tl : Timeline) (origin : ℤ) (first count : ℕ) → IsTidy tl → pos 0 ≤ℤ steps_passed tl origin first count }
    ensures frames { (state : State) (origin : ℤ) (first count : ℕ)
        → All (λ hit. (first ≤ hit.frame) × (hit.frame < first + count) × (step_in state origin hit.frame ≡ Some hit.step))
        (struck_from state origin first count) }
{}

/// Frames that are cut in two give the same steps, the same samples and the same ages with the same state.
pub fn a_cut_changes_nothing()
    ensures steps { (state : State) (origin : ℤ) (first n m : ℕ) → struck_from state origin first (n + m)
        ≡ struck_from state origin first n ++ struck_from state origin (first + n) m }
    ensures sounds { (pattern : Pattern) (state : State) (origin : ℤ) (ages : Ages) (first n m : ℕ)
        → sounds_from pattern state origin ages first (n + m)
        ≡ sounds_from pattern state origin ages first n ++ sounds_from pattern state origin (ages_from pattern state origin ages first n) (first + n) m }
    ensures ages { (pattern : Pattern) (state : State) (origin : ℤ) (ages : Ages) (first n m : ℕ)
        → ages_from pattern state origin ages first (n + m)
        ≡ ages_from pattern state origin (ages_from pattern state origin ages first n) (first + n) m }
{}

/// A text at fault is no pattern's, so that each text has one answer.
pub fn a_fault_is_no_pattern()
    ensures { (text : List ℕ) (line : ℕ) (pattern : Pattern) → IsPattern pattern → IsFaultAt text line → text ≢ spelled_of pattern }
{}
