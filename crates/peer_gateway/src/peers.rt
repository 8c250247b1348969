//! The table of peers.

mod answers;
mod counts;
mod limits;
mod rows;

use crate::expiry::Expiry;
use crate::peers::counts::ids_in;
use crate::row::{PeerRow, Seen, is_same, sighted};
use lk_base::{Endpoint, Gate, NodeId};
use std::alloc::{AllocError, Global};
use std::marker::Model;

/// How many rows a gate has at most.
pub const ROWS: usize = 128;

/// The peers that were seen on a node's gates: a row for each gate and id, at most 128 a gate. A row ends with a goodbye,
/// or where it is pruned at or after its limit, which is a second after the time to live of the last sighting.
///
/// No call but `new` takes memory, and no answer depends on the order in which peers came.
#[derive(Debug, Drop)]
pub struct Peers {
    gates: u8,
    // In order of (id, gate).
    rows: Vec<PeerRow>,
    // One for each row, in order of (limit, gate, id).
    by_limit: Vec<Expiry>,
    // The session whose peers are counted as they come and go, and how many there are.
    watched: NodeId,
    in_watched: u32,
}

impl Model for Peers {
    ghost use Rattle.std.specs.Prelude.{◌≡◌, ◌≤◌, ◌*◌, None, length, vec_capacity};
    ghost use Rattle.peer_gateway.specs.Order.{IsTable};
    ghost use Rattle.peer_gateway.specs.Picks.{ids_counted};
    ghost use Rattle.peer_gateway.specs.Table.{Table};

    ghost Value = { Table };

    ghost view = { λ s. record { gates = s.gates; rows = s.rows.items } };

    ghost invariant = { λ s. IsTable s.gates s.rows.items s.by_limit.items
        × (vec_capacity s.rows ≡ 128 * s.gates) × (vec_capacity s.by_limit ≡ 128 * s.gates)
        × (s.gates ≤ 4) × (s.in_watched ≡ length (ids_counted s.watched None s.rows.items)) };
}

impl Peers {
    ghost use Rattle.std.specs.Prelude.{◌≡◌, ◌≤◌, ◌<◌, ◌*◌, ℕ, List, [], false, length, map, IfOk};
    ghost use Rattle.lk_base.specs.Ranges.{IsMoment};
    ghost use Rattle.peer_gateway.specs.Answers.{had_row, seen_of, ended_by, least_limit_of, peers_in, has_peers, target_of};
    ghost use Rattle.peer_gateway.specs.Expiry.{expiry_of, IsInOrder, HaveSame};
    ghost use Rattle.peer_gateway.specs.Happenings.{Happening, rows_of, life_after, row_seen, said_goodbye, was_pruned, StandsFor};

    /// A table without rows, for this many gates. Memory: room for 128 rows a gate.
    pub fn new(alloc: Global, gates: u8) -> Result<Peers, AllocError>
        requires { (1 ≤ gates) × (gates ≤ 4) }
        ensures stands { IfOk result (λ peers. StandsFor peers []) }
        ensures gates { IfOk result (λ peers. peers.gates ≡ gates) }
    {
        let room = ROWS * usize::from(gates);
        let rows = Vec::with_capacity(alloc, room)?;
        let by_limit = Vec::with_capacity(alloc, room)?;
        Ok(Peers {
            gates,
            rows,
            by_limit,
            watched: NodeId([0; 8]),
            in_watched: 0,
        })
    }

    /// Writes the row of a peer that was seen on a gate at the host time `now`, with a time to live in seconds.
    ///
    /// `TableFull` where the gate has 128 rows and none of this id, `Known` where the peer had a row on this gate, else
    /// `New`.
    pub fn saw(
        &mut self,
        gate: Gate,
        id: NodeId,
        ttl: u8,
        session: NodeId,
        endpoint: Option<Endpoint>,
        now: i64,
    ) -> Seen
        requires gate { gate.0 < self.old.gates }
        requires moment { IsMoment now }
        ensures answer { (life : List Happening) → StandsFor self.old life → result ≡ seen_of gate id life }
        ensures stands { (life : List Happening) → StandsFor self.old life
            → StandsFor self.new (life_after (seen_of gate id life) (row_seen gate id ttl session endpoint now) life) }
        ensures full { result ≡ Seen.TableFull → self.new ≡ self.old }
        ensures gates { self.new.gates ≡ self.old.gates }
    {
        let row = sighted(gate, id, ttl, session, endpoint, now);
        match self.place_of(gate, &id) {
            Ok(at) => {
                self.renew_row(at, row);
                Seen::Known
            }
            Err(at) => {
                if self.rows_on(gate) < ROWS {
                    self.add_row(at, row);
                    Seen::New
                } else {
                    Seen::TableFull
                }
            }
        }
    }

    /// Ends the row of a peer that said goodbye on a gate. False where it had none; nothing changes then.
    pub fn bye(&mut self, gate: Gate, id: NodeId) -> bool
        ensures answer { (life : List Happening) → StandsFor self.old life → result ≡ had_row gate id life }
        ensures stands { (life : List Happening) → StandsFor self.old life
            → StandsFor self.new (said_goodbye gate id life) }
        ensures unchanged { result ≡ false → self.new ≡ self.old }
        ensures gates { self.new.gates ≡ self.old.gates }
    {
        match self.place_of(gate, &id) {
            Ok(at) => {
                self.end_row(at, gate, &id);
                true
            }
            Err(_) => false,
        }
    }

    /// Ends each row whose limit is at or before the host time `now`, and answers how many.
    pub fn prune(&mut self, now: i64) -> u32
        ensures answer { (life : List Happening) → StandsFor self.old life → result ≡ ended_by now life }
        ensures stands { (life : List Happening) → StandsFor self.old life → StandsFor self.new (was_pruned now life) }
        ensures unchanged { result ≡ 0 → self.new ≡ self.old }
        ensures gates { self.new.gates ≡ self.old.gates }
    {
        self.end_rows(now)
    }

    /// Ends all rows.
    pub fn clear(&mut self)
        ensures stands { StandsFor self.new [] }
        ensures gates { self.new.gates ≡ self.old.gates }
    {
        self.rows.clear();
        self.by_limit.clear();
        self.in_watched = 0;
    }

    /// Keeps from now on how many peers there are in this session, so that `count` of it goes over no rows. No answer changes.
    pub fn watch(&mut self, session: NodeId)
        ensures { self.new ≡ self.old }
    {
        if !is_same(&self.watched, &session) {
            self.in_watched = ids_in(&self.rows, &session);
            self.watched = session;
        }
    }

    /// When each row ends: an entry for each row, in order of limit, then gate, then id.
    pub fn by_limit(&self) -> &[Expiry]
        ensures in_order { IsInOrder result.now }
        ensures rows { (life : List Happening) → StandsFor self.now life
            → HaveSame result.now (map expiry_of (rows_of life)) }
        ensures count { (life : List Happening) → StandsFor self.now life
            → length result.now ≡ length (rows_of life) }
    {
        &self.by_limit
    }
}
