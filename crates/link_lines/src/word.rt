//! The words of a line, which are parted by single bytes.

ghost use Rattle.std.specs.Prelude.{◌≡◌, ℕ, List, ◌∷◌, ◌++◌, Contains, IfSome, IfNone};

use memchr::memchr;

/// What stands before the first `end`, and what stands after it.
pub(crate) fn cut_at(bytes: &[u8], end: u8) -> Option<(&[u8], &[u8])>
    ensures some { IfSome result (λ cut. (bytes.now ≡ cut.0.now ++ end ∷ cut.1.now)
        × (Contains cut.0.now end → ⊥)) }
    ensures none { IfNone result (Contains bytes.now end → ⊥) }
{
    let Some(at) = memchr(end, bytes) else {
        return None;
    };
    Some((&bytes[..at], &bytes[at + 1..]))
}

/// What stands after `prefix`, with which the bytes begin.
pub(crate) fn after<'a>(bytes: &'a [u8], prefix: &[u8]) -> Option<&'a [u8]>
    ensures some { IfSome result (λ rest. bytes.now ≡ prefix.now ++ rest.now) }
    ensures none { IfNone result ((rest : List ℕ) → bytes.now ≡ prefix.now ++ rest → ⊥) }
{
    bytes.strip_prefix(prefix)
}
