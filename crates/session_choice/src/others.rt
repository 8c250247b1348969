//! The sessions that are known besides the current one.

ghost use Rattle.std.specs.Prelude.{◌≡◌, ◌<◌, ◌≤◌, length, position, slice_index_or, slice_set};
ghost use Rattle.std.specs.Vec.{vec_capacity};
ghost use Rattle.lk_base.specs.IdOrder.{same_id};
ghost use Rattle.session_choice.specs.Changes.{saw_other_of, others_after};

use crate::known::Known;
use crate::verdict::Saw;
use lk_base::{NodeId, Timeline};
use std::mem;

/// How many sessions besides the current one are known at most.
pub const OTHERS: usize = 64;

/// The place of a session among the others. None where it isn't there.
pub fn place_of(others: &Vec<Known>, session: NodeId) -> Option<usize>
    ensures { result ≡ position (λ known. same_id known.session session) others.now.items }
{
    others.iter().position(|known| known.session == session)
}

/// Takes a timeline of a session that isn't the current one.
pub fn see_other(others: &mut Vec<Known>, session: NodeId, timeline: Timeline) -> Saw
    requires { 64 ≤ vec_capacity others.old }
    ensures answer { result ≡ saw_other_of others.old.items session timeline }
    ensures items { others.new.items ≡ others_after others.old.items session timeline }
    ensures room { vec_capacity others.new ≡ vec_capacity others.old }
{
    match place_of(others, session) {
        Some(place) => others[place].see(timeline),
        None if others.len() < OTHERS => {
            others.push_reserved(Known { session, timeline });
            Saw::New
        }
        None => Saw::Full,
    }
}

/// Exchanges the current session and the other one at a place.
pub fn exchange(current: &mut Known, others: &mut Vec<Known>, place: usize)
    requires { place < length others.old.items }
    ensures current { current.new ≡ slice_index_or others.old.items place current.old }
    ensures items { others.new.items ≡ slice_set others.old.items place current.old }
    ensures room { vec_capacity others.new ≡ vec_capacity others.old }
{
    mem::swap(current, &mut others[place]);
}
