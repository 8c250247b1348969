//! The answer to a ping.

ghost use Rattle.std.specs.Prelude.{◌≡◌, ◌<◌, ◌+◌, ◌↔◌, length, IsNone, IfSome};
ghost use Rattle.arrayvec.specs.ArrayVec.{array_vec_len};
ghost use Rattle.asdp_messages.specs.Spelling.{spelled_of};
ghost use Rattle.asdp_messages.specs.Spelling as written;

use asdp_messages::write_pong_message;
use lk_base::{NodeId, Wire};

/// The most bytes of a ping's payload that are answered.
const ECHO_LEN: usize = 32;

/// The pong that answers a ping with this payload, of the session and at the ghost time of the answering node. None
/// where the payload has more than 32 bytes; nothing is copied then.
pub fn answer_ping(payload: &[u8], session: NodeId, ghost_time: i64) -> Option<Wire>
    ensures some { IfSome result (λ wire. wire.items ≡ spelled_of (written.Pong session ghost_time payload.now)) }
    ensures none { IsNone result ↔ (32 < length payload.now) }
    ensures len { IfSome result (λ wire. array_vec_len wire ≡ 41 + length payload.now) }
{
    if payload.len() > ECHO_LEN {
        return None;
    }
    Some(write_pong_message(session, ghost_time, payload))
}
