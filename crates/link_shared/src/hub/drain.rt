//! Emptying the queue.
ghost use Rattle.std.specs.Prelude.{◌≡◌, [], true, map};
ghost use Rattle.crossbeam_queue.specs.Passes.{view, IsSamePass, IsPassOf};
ghost use Rattle.lk_base.specs.Ranges.{IsMoment};
ghost use Rattle.link_node.specs.Config.{config_value};
ghost use Rattle.link_node.specs.Event.{event_value};
ghost use Rattle.link_node.specs.Opening.{opened};
ghost use Rattle.link_node.specs.Standing.{gates_of};
ghost use Rattle.link_shared.specs.Draining.{HasDrained, HasDrainedOne};

use crate::keeper::Keeper;
use crate::name::LinkName;
use crate::queue::{Item, Queue, QueuePass, pop_item};
use audio_handoff::StateCell;
use link_node::Sends;
use std::sync::Wait;

// Pops all items, and offers each commit. Answers whether the journal was full at one of these.
// Waits: for a place's last user in the queue, and by the way. Memory: none.
pub(crate) fn drain<C: StateCell<11>, N: LinkName, R: Wait>(
    rt: &R,
    queue: &Queue,
    pass: &mut QueuePass,
    keeper: &mut Keeper<C, N>,
    app_states: &C,
    audio_states: &C,
    way: &C::Way,
    now: i64,
    sends: &mut Sends,
) -> bool
    requires queue { IsPassOf queue.now pass.old }
    requires ends { ((view pass.old).pushes ≡ true) × ((view pass.old).pops ≡ true) }
    requires cells { (C.cell app_states.now ≡ N.app_states) × (C.cell audio_states.now ≡ N.audio_states) }
    requires moment { IsMoment now }
    requires sends { sends.old ≡ [] }
    ensures pass { IsSamePass pass.old pass.new }
    ensures ends { (view pass.new).pushes ≡ true }
    ensures pushed { (view pass.new).pushed ≡ (view pass.old).pushed }
    ensures all { (view pass.new).pushed ≡ (view pass.new).popped }
    ensures opening { (keeper.new.opened_at ≡ keeper.old.opened_at) × (keeper.new.most ≡ keeper.old.most) }
    ensures config { (config_value keeper.new.node.config ≡ config_value keeper.old.node.config) × (gates_of keeper.new.node ≡ gates_of keeper.old.node) }
    ensures drained { HasDrained (opened (config_value keeper.old.node.config) keeper.old.opened_at) keeper.old.most now (view pass.old).popped (view pass.new).popped
        (map event_value keeper.old.journal.items) (map event_value keeper.new.journal.items) result }
    ensures sends { sends.new ≡ [] }
{
    let mut full = false;
    for _ in rt.forever() {
        match drain_one(
            rt,
            queue,
            pass,
            keeper,
            app_states,
            audio_states,
            way,
            now,
            sends,
        ) {
            None => return full,
            Some(was_full) => full |= was_full,
        }
    }
    unreachable!()
}

// Pops an item, and offers it where it is a commit. Answers whether the journal was full then, and `None` where the queue was empty.
// Waits: for a place's last user in the queue, and by the way. Memory: none.
fn drain_one<C: StateCell<11>, N: LinkName, R: Wait>(
    rt: &R,
    queue: &Queue,
    pass: &mut QueuePass,
    keeper: &mut Keeper<C, N>,
    app_states: &C,
    audio_states: &C,
    way: &C::Way,
    now: i64,
    sends: &mut Sends,
) -> Option<bool>
    requires queue { IsPassOf queue.now pass.old }
    requires ends { ((view pass.old).pushes ≡ true) × ((view pass.old).pops ≡ true) }
    requires cells { (C.cell app_states.now ≡ N.app_states) × (C.cell audio_states.now ≡ N.audio_states) }
    requires moment { IsMoment now }
    requires sends { sends.old ≡ [] }
    ensures pass { IsSamePass pass.old pass.new }
    ensures ends { ((view pass.new).pushes ≡ true) × ((view pass.new).pops ≡ true) }
    ensures pushed { (view pass.new).pushed ≡ (view pass.old).pushed }
    ensures opening { (keeper.new.opened_at ≡ keeper.old.opened_at) × (keeper.new.most ≡ keeper.old.most) }
    ensures config { (config_value keeper.new.node.config ≡ config_value keeper.old.node.config) × (gates_of keeper.new.node ≡ gates_of keeper.old.node) }
    ensures drained { HasDrainedOne (opened (config_value keeper.old.node.config) keeper.old.opened_at) keeper.old.most now (view pass.old) (view pass.new)
        (map event_value keeper.old.journal.items) (map event_value keeper.new.journal.items) result }
    ensures sends { sends.new ≡ [] }
{
    match pop_item(rt, queue, pass) {
        None => None,
        Some(Item::Quit) => Some(false),
        Some(Item::Commit(commit)) => Some(keeper.offer_app(
            app_states,
            audio_states,
            way,
            commit,
            now,
            sends,
        )),
    }
}
