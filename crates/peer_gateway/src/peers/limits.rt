//! The list of when rows end, in order of (limit, gate, id).

ghost use Rattle.std.specs.Prelude.{◌≡◌, ◌<◌, ◌≤◌, ◌≤ℤ◌, ◌<ℤ◌, List, length, take, drop, MatchResult, vec_len, vec_capacity};
ghost use Rattle.peer_gateway.specs.Happenings.{Has};
ghost use Rattle.peer_gateway.specs.Order.{entry_order, Rise, IsAt, BelongsAt, IsWith, IsWithout};
ghost use Rattle.peer_gateway.specs.declared.expiry.Expiry.{Expiry};

use crate::expiry::Expiry;
use std::cmp::Ordering;

// How one entry stands to another.
fn compared(one: &Expiry, other: &Expiry) -> Ordering
    ensures { result ≡ entry_order one.now other.now }
{
    one.limit
        .cmp(&other.limit)
        .then(one.gate.cmp(&other.gate))
        .then(one.id.cmp(&other.id))
}

// Where an entry stands, or else where it belongs.
fn place_of(by_limit: &Vec<Expiry>, entry: &Expiry) -> Result<usize, usize>
    requires { Rise entry_order by_limit.now.items }
    ensures { MatchResult result (IsAt (λ other. entry_order other entry.now) by_limit.now.items)
        (BelongsAt (λ other. entry_order other entry.now) by_limit.now.items) }
{
    by_limit.binary_search_by(|other| compared(other, entry))
}

// Puts an entry at its place.
pub fn add_entry(by_limit: &mut Vec<Expiry>, entry: Expiry)
    requires in_order { Rise entry_order by_limit.old.items }
    requires room { vec_len by_limit.old < vec_capacity by_limit.old }
    ensures in_order { Rise entry_order by_limit.new.items }
    ensures added { IsWith entry by_limit.old.items by_limit.new.items }
    ensures capacity { vec_capacity by_limit.new ≡ vec_capacity by_limit.old }
{
    if let Err(at) = place_of(by_limit, &entry) {
        let _inserted = by_limit.insert(at, entry);
    }
}

// Takes an entry out.
pub fn end_entry(by_limit: &mut Vec<Expiry>, entry: &Expiry)
    requires in_order { Rise entry_order by_limit.old.items }
    ensures in_order { Rise entry_order by_limit.new.items }
    ensures ended { IsWithout entry.now by_limit.old.items by_limit.new.items }
    ensures capacity { vec_capacity by_limit.new ≡ vec_capacity by_limit.old }
{
    if let Ok(at) = place_of(by_limit, entry) {
        let _ended = by_limit.remove(at);
    }
}

// How many entries end at or before the host time `now`: they are the first.
pub fn ended_at(by_limit: &Vec<Expiry>, now: i64) -> usize
    requires { Rise entry_order by_limit.now.items }
    ensures within { result ≤ length by_limit.now.items }
    ensures ended { (e : Expiry) → Has (take result by_limit.now.items) e → e.limit ≤ℤ now }
    ensures left { (e : Expiry) → Has (drop result by_limit.now.items) e → now <ℤ e.limit }
{
    let mut ended = 0;
    while ended < by_limit.len() && by_limit[ended].limit <= now {
        ended += 1;
    }
    ended
}

// Takes the first entries out.
pub fn end_front(by_limit: &mut Vec<Expiry>, ended: usize)
    requires { ended ≤ length by_limit.old.items }
    ensures items { by_limit.new.items ≡ drop ended by_limit.old.items }
    ensures capacity { vec_capacity by_limit.new ≡ vec_capacity by_limit.old }
{
    drop(by_limit.drain(..ended));
}
