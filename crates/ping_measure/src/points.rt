//! The points of a pong, and the offset that points tell.

ghost use Rattle.std.specs.Prelude.{◌≡◌, ◌+◌, ◌<◌, ◌≤◌, ◌++◌, ◌||◌, not, false, length};
ghost use Rattle.arrayvec.specs.ArrayVec.{array_vec_len};
ghost use Rattle.lk_base.specs.Ranges.{IsMoment, IsWithinLimit};
ghost use Rattle.ghost_xform.specs.Rank as rank;
ghost use Rattle.ping_measure.specs.Points.{is_zero, point_before_of, point_of, points_in};

use arrayvec::ArrayVec;
use ghost_xform::offset_of;
use link_payload::PongFields;

// 100 are not yet enough, and a pong gives at most two.
type Points = ArrayVec<i64, 102>;

// Whether a pong gives a point: it carries a ghost time and a host time.
pub(crate) fn gives_points(pong: &PongFields) -> bool
    ensures { result ≡ not (is_zero pong.now.ghost_time || is_zero pong.now.host) }
{
    !(pong.ghost_time == 0 || pong.host == 0)
}

// Appends the points of a pong that came at the host time `now`.
pub(crate) fn add_points(points: &mut Points, pong: &PongFields, now: i64)
    requires room { array_vec_len points.old ≤ 100 }
    requires some { (is_zero pong.now.ghost_time || is_zero pong.now.host) ≡ false }
    requires moment { IsMoment now }
    requires ghost_time { IsWithinLimit pong.now.ghost_time }
    requires host { IsWithinLimit pong.now.host }
    requires previous { IsWithinLimit pong.now.previous }
    ensures items { points.new.items ≡ points.old.items ++ points_in pong.now now }
    ensures len { array_vec_len points.new ≤ 102 }
    ensures more { 0 < array_vec_len points.new }
{
    points.push(point(pong, now));
    if has_previous(pong) {
        points.push(point_before(pong));
    }
}

fn has_previous(pong: &PongFields) -> bool
    ensures { result ≡ not (is_zero pong.now.previous) }
{
    pong.previous != 0
}

fn point(pong: &PongFields, now: i64) -> i64
    requires moment { IsMoment now }
    requires ghost_time { IsWithinLimit pong.now.ghost_time }
    requires host { IsWithinLimit pong.now.host }
    ensures { result ≡ point_of pong.now now }
{
    pong.ghost_time + pong.ghost_time - (now + pong.host)
}

fn point_before(pong: &PongFields) -> i64
    requires ghost_time { IsWithinLimit pong.now.ghost_time }
    requires host { IsWithinLimit pong.now.host }
    requires previous { IsWithinLimit pong.now.previous }
    ensures { result ≡ point_before_of pong.now }
{
    pong.ghost_time + pong.previous - (pong.host + pong.host)
}

// The offset that the points tell; they stay in their order.
pub(crate) fn offset_in(points: &Points) -> i64
    requires { 0 < array_vec_len points.now }
    ensures { result ≡ rank.offset_of points.now.items }
{
    let mut sorted = Points::new();
    let _copied = sorted.try_extend_from_slice(points.as_slice());
    offset_of(sorted.as_mut_slice())
}
