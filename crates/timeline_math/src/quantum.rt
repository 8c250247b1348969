//! Phases within a quantum, and the beats that match one.

ghost use Rattle.std.specs.Prelude.{◌≡◌, ℤ, pos, ◌-◌, ◌*◌, ◌^◌, ◌≤◌, ◌+ℤ◌, ◌-ℤ◌, ◌<ℤ◌, ◌≤ℤ◌, unsigned_abs};
ghost use Rattle.lk_base.specs.Ranges.{IsQuantum, IsWithin};
ghost use Rattle.lk_base.specs.Rounding.{nearest_of};
ghost use Rattle.timeline_math.specs.Quantum.{IsPhase, phase_of, IsNextMatch, next_match_of, closest_match_of};

/// How far `beat` is past the last beat that `quantum` divides, in microbeats; 0 where the quantum is 0.
/// A negative beat has a phase too, from 0 up. The term is Link 3's (`Phase.hpp`).
pub fn phase(beat: i64, quantum: i64) -> i64
    requires beat { IsWithin (2 ^ 62) beat }
    requires quantum { IsQuantum quantum }
    ensures value { result ≡ phase_of beat quantum }
    ensures phase { IsPhase beat quantum result }
    ensures only { (p : ℤ) → IsPhase beat quantum p → p ≡ result }
    ensures low { pos 0 ≤ℤ result }
    ensures high { result ≤ℤ quantum }
{
    rest_of(beat, quantum)
}

/// The least beat at or above `beat` that has the phase of `target`; `beat` where the quantum is 0. After
/// Link 3 (`Phase.hpp`, `nextPhaseMatch`).
pub fn next_match(beat: i64, target: i64, quantum: i64) -> i64
    requires beat { IsWithin (2 ^ 62 - 2 ^ 41) beat }
    requires target { IsWithin (2 ^ 62 - 2 ^ 41) target }
    requires quantum { IsQuantum quantum }
    ensures value { result ≡ next_match_of beat target quantum }
    ensures next { IsNextMatch beat target quantum result }
    ensures only { (z : ℤ) → IsNextMatch beat target quantum z → z ≡ result }
    ensures low { beat ≤ℤ result }
    ensures high { result ≤ℤ (beat +ℤ quantum) }
{
    beat + rest_of(target - beat, quantum)
}

/// The first beat with the phase of `target` from half a quantum, rounded up, before `beat` on; `beat` where
/// the quantum is 0. Of two matches as far from `beat` it is the lesser; for an odd quantum it may lie a
/// microbeat farther than another. After Link 3 (`Phase.hpp`, `closestPhaseMatch`).
pub fn closest_match(beat: i64, target: i64, quantum: i64) -> i64
    requires beat { IsWithin (2 ^ 62 - 2 ^ 42) beat }
    requires target { IsWithin (2 ^ 62 - 2 ^ 42) target }
    requires quantum { IsQuantum quantum }
    ensures value { result ≡ closest_match_of beat target quantum }
    ensures next { IsNextMatch (beat -ℤ nearest_of quantum (pos 2)) target quantum result }
    ensures near { pos (2 * unsigned_abs (result -ℤ beat)) ≤ℤ (quantum +ℤ pos 1) }
{
    next_match(beat - half_of(quantum), target, quantum)
}

// The phase of any number.
fn rest_of(n: i64, quantum: i64) -> i64
    requires { IsQuantum quantum }
    ensures value { result ≡ phase_of n quantum }
    ensures low { pos 0 ≤ℤ result }
    ensures high { result ≤ℤ quantum }
{
    if quantum == 0 {
        0
    } else {
        n.rem_euclid(quantum)
    }
}

// Half a quantum, rounded up.
fn half_of(quantum: i64) -> i64
    requires { IsQuantum quantum }
    ensures value { result ≡ nearest_of quantum (pos 2) }
    ensures low { pos 0 ≤ℤ result }
    ensures high { result ≤ℤ quantum }
{
    (quantum + 1) / 2
}
