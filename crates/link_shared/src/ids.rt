//! What the type says of an id, for proofs: to call it is to know it.
ghost use Rattle.client_state.specs.State.{IsId};

use lk_base::NodeId;

// By value, since the bytes of a value are known to be eight.
pub(crate) fn is_id(id: NodeId)
    ensures { IsId id }
{}
