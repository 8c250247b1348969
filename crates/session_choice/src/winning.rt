//! Which session wins.

ghost use Rattle.std.specs.Prelude.{◌≡◌, pos, neg_ℤ, int_lt, ◌-ℤ◌, ◌^◌, ◌&&◌, ◌||◌};
ghost use Rattle.lk_base.specs.Ranges.{IsWithin};
ghost use Rattle.session_choice.specs.Winning.{lead_of, wins_over};

use ghost_xform::XForm;
use lk_base::NodeId;

// Half a second, in microseconds.
const HALF_SECOND: i64 = 500_000;

/// Whether a session wins over the current one, by the offset of each, at the host time `now`: its ghost time is more
/// than 500,000 microseconds later than the current session's, or less than 500,000 away from it with the lesser id.
pub fn wins(session: NodeId, xform: &XForm, current: NodeId, held: &XForm, now: i64) -> bool
    ensures { result ≡ wins_over session xform.now.offset current held.now.offset now }
{
    wins_by(lead(xform, held, now), session.cmp(&current).is_lt())
}

// By how much the first ghost time is later than the second, in microseconds.
fn lead(xform: &XForm, held: &XForm, now: i64) -> i64
    ensures { result ≡ lead_of xform.now.offset held.now.offset now }
{
    difference(xform.to_ghost(now), held.to_ghost(now))
}

fn difference(a: i64, b: i64) -> i64
    requires first { IsWithin (2 ^ 60) a }
    requires second { IsWithin (2 ^ 60) b }
    ensures { result ≡ a -ℤ b }
{
    a - b
}

// Whether a lead is enough, for a session whose id is the lesser one or isn't.
fn wins_by(lead: i64, lesser: bool) -> bool
    ensures { result ≡ (int_lt (pos 500_000) lead
        || (int_lt (neg_ℤ (pos 500_000)) lead && int_lt lead (pos 500_000) && lesser)) }
{
    HALF_SECOND < lead || (-HALF_SECOND < lead && lead < HALF_SECOND && lesser)
}
