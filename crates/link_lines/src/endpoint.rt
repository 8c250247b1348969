//! Endpoints, as four numbers parted by dots, a colon and a port.

ghost use Rattle.std.specs.Prelude.{◌≡◌, ◌≤◌, ◌+◌, ◌*◌, ℕ, List, IfSome, IfNone};
ghost use Rattle.lk_base.specs.declared.endpoint.Endpoint.{Endpoint};
ghost use Rattle.lk_base.specs.Endpoint.{IsEndpoint};
ghost use Rattle.link_lines.specs.Words.{dotted, endpoint_text_of};

use crate::number::{number_before, number_of};
use lk_base::Endpoint;

/// The endpoint that a word says. Memory: none.
pub fn endpoint_of(word: &[u8]) -> Option<Endpoint>
    ensures some { IfSome result (λ e. IsEndpoint e × (word.now ≡ endpoint_text_of e)) }
    ensures none { IfNone result ((e : Endpoint) → IsEndpoint e → word.now ≡ endpoint_text_of e → ⊥) }
{
    let Some((a, rest)) = number_before(word, b'.', 255) else {
        return None;
    };
    let Some((b, rest)) = number_before(rest, b'.', 255) else {
        return None;
    };
    let Some((c, rest)) = number_before(rest, b'.', 255) else {
        return None;
    };
    let Some((d, rest)) = number_before(rest, b':', 255) else {
        return None;
    };
    let Some(port) = number_of(rest, 65_535) else {
        return None;
    };
    Some(Endpoint {
        addr: (((a * 256 + b) * 256 + c) * 256 + d) as u32,
        port: port as u16,
    })
}
