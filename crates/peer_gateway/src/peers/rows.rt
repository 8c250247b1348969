//! The list of rows, in order of (id, gate), and its changes together with the list by limit and the number of peers.

ghost use Rattle.std.specs.Prelude.{◌≡◌};
ghost use Rattle.peer_gateway.specs.Happenings.{lives};
ghost use Rattle.peer_gateway.specs.Expiry.{expiry_of};
ghost use Rattle.peer_gateway.specs.Order.{order_at};

use crate::expiry::Expiry;
use crate::peers::Peers;
use crate::peers::counts::{counted_alone, ids_in, kept_count};
use crate::peers::limits::{add_entry, end_entry, end_front, ended_at};
use crate::row::{PeerRow, is_same};
use lk_base::{Gate, NodeId};
use std::cmp::Ordering;

impl Peers {
    ghost use Rattle.std.specs.Prelude.{◌≡◌, ◌<◌, length, filter, not, MatchResult};
    ghost use Rattle.peer_gateway.specs.Answers.{is_on};
    ghost use Rattle.peer_gateway.specs.Happenings.{lives};
    ghost use Rattle.peer_gateway.specs.Order.{order_at, row_order, Rise, IsAt, BelongsAt, IsEnded, IsWritten};

    // Where the row of a gate and an id stands, or else where it belongs.
    pub(super) fn place_of(&self, gate: Gate, id: &NodeId) -> Result<usize, usize>
        ensures place { MatchResult result (IsAt (order_at gate id.now) self.now.rows)
            (BelongsAt (order_at gate id.now) self.now.rows) }
        ensures in_order { Rise row_order self.now.rows }
    {
        self.rows.binary_search_by(|row| compared(row, gate, id))
    }

    // How many rows a gate has.
    pub(super) fn rows_on(&self, gate: Gate) -> usize
        ensures { result ≡ length (filter (is_on gate) self.now.rows) }
    {
        let mut on = 0;
        for row in self.rows.iter() {
            if row.gate == gate {
                on += 1;
            }
        }
        on
    }

    // Writes the row at its place over that of its gate and id.
    pub(super) fn renew_row(&mut self, at: usize, row: PeerRow)
        requires { IsAt (order_at row.gate row.id) self.old.rows at }
        ensures written { IsWritten row self.old.rows self.new.rows }
        ensures gates { self.new.gates ≡ self.old.gates }
    {
        let old = self.rows[at];
        let lost = counted_alone(&self.rows, at, &self.watched);
        end_entry(&mut self.by_limit, &expiry(&old));
        add_entry(&mut self.by_limit, expiry(&row));
        self.rows[at] = row;
        if !is_same(&old.session, &row.session) {
            let gained = counted_alone(&self.rows, at, &self.watched);
            self.in_watched = kept_count(self.in_watched, lost, gained, &self.rows, &self.watched);
        }
    }

    // Puts a row of a new gate and id at its place.
    pub(super) fn add_row(&mut self, at: usize, row: PeerRow)
        requires gate { row.gate.0 < self.old.gates }
        requires room { length (filter (is_on row.gate) self.old.rows) < 128 }
        requires place { BelongsAt (order_at row.gate row.id) self.old.rows at }
        ensures written { IsWritten row self.old.rows self.new.rows }
        ensures gates { self.new.gates ≡ self.old.gates }
    {
        add_entry(&mut self.by_limit, expiry(&row));
        let _inserted = self.rows.insert(at, row);
        let gained = counted_alone(&self.rows, at, &self.watched);
        self.in_watched = kept_count(self.in_watched, Some(0), gained, &self.rows, &self.watched);
    }

    // Takes the row of a gate and an id out of its place.
    pub(super) fn end_row(&mut self, at: usize, gate: Gate, id: &NodeId)
        requires { IsAt (order_at gate id.now) self.old.rows at }
        ensures ended { IsEnded gate id.now self.old.rows self.new.rows }
        ensures gates { self.new.gates ≡ self.old.gates }
    {
        let lost = counted_alone(&self.rows, at, &self.watched);
        end_entry(&mut self.by_limit, &expiry(&self.rows[at]));
        let _ended = self.rows.remove(at);
        self.in_watched = kept_count(self.in_watched, lost, Some(0), &self.rows, &self.watched);
    }

    // Takes out each row that ends at or before the host time `now`, and answers how many.
    pub(super) fn end_rows(&mut self, now: i64) -> u32
        ensures rows { self.new.rows ≡ filter (lives now) self.old.rows }
        ensures ended { result ≡ length (filter (λ row. not (lives now row)) self.old.rows) }
        ensures in_order { Rise row_order self.old.rows }
        ensures gates { self.new.gates ≡ self.old.gates }
    {
        let ended = ended_at(&self.by_limit, now);
        if ended > 0 {
            end_front(&mut self.by_limit, ended);
            self.rows.retain(|row| goes_on(row, now));
            self.in_watched = ids_in(&self.rows, &self.watched);
        }
        ended as u32
    }
}

// When a row ends.
fn expiry(row: &PeerRow) -> Expiry
    ensures { result ≡ expiry_of row.now }
{
    Expiry {
        limit: row.limit,
        gate: row.gate,
        id: row.id,
    }
}

// How a row stands to a gate and an id.
fn compared(row: &PeerRow, gate: Gate, id: &NodeId) -> Ordering
    ensures { result ≡ order_at gate id.now row.now }
{
    row.id.cmp(id).then(row.gate.cmp(&gate))
}

// Whether a row ends after the host time `now`.
fn goes_on(row: &PeerRow, now: i64) -> bool
    ensures { result ≡ lives now row.now }
{
    now < row.limit
}
