//! The ids of nodes, as a word spells them.

ghost use Rattle.std.specs.Prelude.{◌≡◌, IfSome, IfNone};
ghost use Rattle.lk_base.specs.declared.ids.NodeId.{NodeId};
ghost use Rattle.link_script.specs.ReplayScript.{IsVisibleId};

use lk_base::NodeId;

/// The id of eight characters from `!` to `~`.
pub(crate) fn id_of(word: &[u8]) -> Option<NodeId>
    ensures some { IfSome result (λ id. IsVisibleId id × (word.now ≡ id.0)) }
    ensures none { IfNone result ((id : NodeId) → IsVisibleId id → word.now ≡ id.0 → ⊥) }
{
    if word.len() != 8 {
        return None;
    }
    if !word.iter().all(|c| *c >= b'!' && *c <= b'~') {
        return None;
    }
    let mut id = [0u8; 8];
    id.copy_from_slice(word);
    Some(NodeId(id))
}
