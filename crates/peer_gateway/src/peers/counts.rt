//! How many ids have a row in a session, counted anew or kept through the change of one row.

ghost use Rattle.std.specs.Prelude.{◌≡◌, ◌<◌, ◌≤◌, ◌+◌, ◌^◌, None, IfSome, IsTrue, length};
ghost use Rattle.peer_gateway.specs.Order.{row_order, Rise};
ghost use Rattle.peer_gateway.specs.Picks.{is_last, is_counted, ids_counted, others_of, IsAlone};

use crate::row::{PeerRow, is_same};
use lk_base::NodeId;

// How many ids have a row in the session. The rows of one id stand side by side.
pub fn ids_in(rows: &Vec<PeerRow>, session: &NodeId) -> u32
    requires { length rows.now.items < 2 ^ 32 }
    ensures { result ≡ length (ids_counted session.now None rows.now.items) }
{
    let mut count = 0;
    let mut last = None;
    for row in rows.iter() {
        if is_counted(session, &last, row) {
            count += 1;
            last = Some(row.id);
        }
    }
    count
}

// Whether a row is in the session, and its id isn't the one that was counted last.
fn is_counted(session: &NodeId, last: &Option<NodeId>, row: &PeerRow) -> bool
    ensures { result ≡ is_counted session.now last.now row.now }
{
    is_same(&row.session, session) && !is_last(last, &row.id)
}

// Whether it was counted last.
fn is_last(last: &Option<NodeId>, id: &NodeId) -> bool
    ensures { result ≡ is_last last.now id.now }
{
    match last {
        Some(last) => is_same(last, id),
        None => false,
    }
}

// By how much the row at this place counts in the session, where no other row has its id: so much less the others count.
pub fn counted_alone(rows: &Vec<PeerRow>, at: usize, session: &NodeId) -> Option<u32>
    requires in_order { Rise row_order rows.now.items }
    requires place { at < length rows.now.items }
    ensures one { IfSome result (λ alone. alone ≤ 1) }
    ensures others { IfSome result (λ alone. length (ids_counted session.now None rows.now.items)
        ≡ alone + length (ids_counted session.now None (others_of at rows.now.items))) }
{
    if is_alone(rows, at) {
        Some(u32::from(is_same(&rows[at].session, session)))
    } else {
        None
    }
}

// Whether no other row has the id of the row at this place. The rows of one id stand side by side.
fn is_alone(rows: &Vec<PeerRow>, at: usize) -> bool
    requires in_order { Rise row_order rows.now.items }
    requires place { at < length rows.now.items }
    ensures { IsTrue result → IsAlone at rows.now.items }
{
    let id = rows[at].id;
    let is_after_same = at > 0 && is_same(&rows[at - 1].id, &id);
    let is_before_same = at + 1 < rows.len() && is_same(&rows[at + 1].id, &id);
    !is_after_same && !is_before_same
}

// How many ids have a row in the session after the change of a row, where so many had one before: less what the row counted
// alone, and more what it counts alone now. Where that isn't known they are counted anew.
pub fn kept_count(
    before: u32,
    lost: Option<u32>,
    gained: Option<u32>,
    rows: &Vec<PeerRow>,
    session: &NodeId,
) -> u32
    requires room { length rows.now.items < 2 ^ 31 }
    requires one { IfSome lost (λ less. less ≤ 1) }
    requires known { IfSome lost (λ less. IfSome gained (λ more. before + more
        ≡ less + length (ids_counted session.now None rows.now.items))) }
    ensures { result ≡ length (ids_counted session.now None rows.now.items) }
{
    match (lost, gained) {
        (Some(less), Some(more)) => before + more - less,
        _ => ids_in(rows, session),
    }
}
