//! What a table answers of sessions, and when a row ends first.

ghost use Rattle.std.specs.Prelude.{◌≡◌, option_map, slice_get};
ghost use Rattle.std.specs.List.{find, list_any};
ghost use Rattle.peer_gateway.specs.Answers.{is_in, target_at};
ghost use Rattle.peer_gateway.specs.Picks.{is_answering, is_founding};

use crate::expiry::Expiry;
use crate::peers::Peers;
use crate::peers::counts::ids_in;
use crate::row::{PeerRow, is_same};
use lk_base::{NodeId, Target};

impl Peers {
    ghost use Rattle.std.specs.Prelude.{◌≡◌, List};
    ghost use Rattle.peer_gateway.specs.Answers.{least_limit_of, peers_in, has_peers, target_of};
    ghost use Rattle.peer_gateway.specs.Happenings.{Happening, StandsFor};

    /// The limit of the row that ends first. None where there is no row.
    pub fn least_limit(&self) -> Option<i64>
        ensures { (life : List Happening) → StandsFor self.now life → result ≡ least_limit_of life }
    {
        first_limit(&self.by_limit)
    }

    /// How many peers there are in a session: one that was seen on several gates counts once.
    pub fn count(&self, session: NodeId) -> u32
        ensures { (life : List Happening) → StandsFor self.now life → result ≡ peers_in session life }
    {
        if is_same(&self.watched, &session) {
            self.in_watched
        } else {
            ids_in(&self.rows, &session)
        }
    }

    /// Whether a peer is in a session.
    pub fn has(&self, session: NodeId) -> bool
        ensures { (life : List Happening) → StandsFor self.now life → result ≡ has_peers session life }
    {
        any_in(&self.rows, &session)
    }

    /// The peer by which a session's clock is measured, of the rows in it with an endpoint: the founder at the least
    /// gate where it has such a row, and else the first by id and then gate. None where no row in it has an endpoint.
    pub fn target(&self, session: NodeId) -> Option<Target>
        ensures { (life : List Happening) → StandsFor self.now life → result ≡ target_of session life }
    {
        match first_of_founder(&self.rows, &session) {
            Some(row) => pinged(row),
            None => match first_answering(&self.rows, &session) {
                Some(row) => pinged(row),
                None => None,
            },
        }
    }
}

// The limit of the first entry.
fn first_limit(by_limit: &Vec<Expiry>) -> Option<i64>
    ensures { result ≡ option_map (λ entry. entry.limit) (slice_get by_limit.now.items 0) }
{
    match by_limit.first() {
        Some(entry) => Some(entry.limit),
        None => None,
    }
}

// Whether a row is in the session.
fn any_in(rows: &Vec<PeerRow>, session: &NodeId) -> bool
    ensures { result ≡ list_any (is_in session.now) rows.now.items }
{
    rows.iter().any(|row| is_same(&row.session, session))
}

// The first row that is in the session and tells where it answers.
fn first_answering<'a>(rows: &'a Vec<PeerRow>, session: &NodeId) -> Option<&'a PeerRow>
    ensures { option_map (λ row. row.now) result ≡ find (is_answering session.now) rows.now.items }
{
    rows.iter().find(|row| is_answering(row, session))
}

// The first of them that is the founder's.
fn first_of_founder<'a>(rows: &'a Vec<PeerRow>, session: &NodeId) -> Option<&'a PeerRow>
    ensures { option_map (λ row. row.now) result ≡ find (is_founding session.now) rows.now.items }
{
    rows.iter().find(|row| is_founding(row, session))
}

// Whether a row is in the session and tells where it answers.
fn is_answering(row: &PeerRow, session: &NodeId) -> bool
    ensures { result ≡ is_answering session.now row.now }
{
    is_same(&row.session, session) && row.endpoint.is_some()
}

// Whether it is the founder's, too.
fn is_founding(row: &PeerRow, session: &NodeId) -> bool
    ensures { result ≡ is_founding session.now row.now }
{
    is_answering(row, session) && is_same(&row.id, session)
}

// Where the peer of a row is pinged.
fn pinged(row: &PeerRow) -> Option<Target>
    ensures { result ≡ target_at row.now }
{
    match row.endpoint {
        Some(endpoint) => Some(Target {
            gate: row.gate,
            id: row.id,
            endpoint,
        }),
        None => None,
    }
}
