//! Laws of timelines and sessions, for the callers' proofs: to call one is to know it.

ghost use Rattle.std.specs.Prelude.{◌≡◌, ◌↔◌, ℤ, List, ◌∷◌, IsTrue};
ghost use Rattle.lk_base.specs.declared.ids.NodeId.{NodeId};
ghost use Rattle.lk_base.specs.declared.timeline.Timeline.{Timeline};
ghost use Rattle.session_choice.specs.Best.{IsBest, best_of};
ghost use Rattle.session_choice.specs.Winning.{Wins, wins_over};

/// Of the timelines that a session has taken, just one is the first of greatest beat origin.
pub fn one_best()
    ensures there { (first : Timeline) (later : List Timeline) → IsBest (first ∷ later) (best_of first later) }
    ensures one { (list : List Timeline) (a b : Timeline) → IsBest list a → IsBest list b → a ≡ b }
{}

/// A session wins just where its rule says so, and of two sessions with fixed offsets not both win over the other at
/// one moment.
pub fn not_both_win()
    ensures rule { (a b : NodeId) (offset other now : ℤ)
        → IsTrue (wins_over a offset b other now) ↔ Wins a offset b other now }
    ensures not_both { (a b : NodeId) (offset other now : ℤ)
        → Wins a offset b other now → Wins b other a offset now → ⊥ }
{}
