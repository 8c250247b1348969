//! The names of nodes and sessions, and where new ones come from.

use rand_core::utils::NextWord;
use rand_pcg::Lcg64Xsh32;
use std::marker::Model;

/// The id of a node, ordered by its bytes. A session goes by the id of the node that founded it.
#[derive(Clone, Copy, Debug, Default, PartialEq, Eq, PartialOrd, Ord)]
pub struct NodeId(pub [u8; 8]);

impl NodeId {
    ghost use Rattle.std.specs.Prelude.{◌≡◌, length};
    ghost use Rattle.lk_base.specs.IdOrder.{id_lt, bytes_lt};

    /// The id of these eight bytes.
    pub fn from_bytes(bytes: &[u8]) -> NodeId
        requires { length bytes.now ≡ 8 }
        ensures { bytes.now ≡ result.0 }
    {
        let mut id = [0; 8];
        id.copy_from_slice(bytes);
        NodeId(id)
    }

    /// Whether it comes before another id, by the first of the eight bytes in which they differ.
    pub fn is_before(&self, other: &NodeId) -> bool
        ensures order { result ≡ id_lt self.now other.now }
        ensures bytes { result ≡ bytes_lt self.now.0 other.now.0 }
    {
        self.cmp(other).is_lt()
    }
}

/// A source of node ids: a PCG generator of 32-bit words, `rand_pcg`'s `Lcg64Xsh32`.
#[derive(Drop)]
pub struct IdSource {
    generator: Lcg64Xsh32,
}

impl Model for IdSource {
    ghost use Rattle.rand_pcg.specs.Lcg.{Lcg};

    ghost Value = { Lcg };

    ghost view = { λ s. s.generator };
}

impl IdSource {
    ghost use Rattle.std.specs.Prelude.{◌≡◌, ◌+◌, ◌%◌, ◌≤◌, All};
    ghost use Rattle.rand_pcg.specs.Lcg.{started, increment_of};
    ghost use Rattle.rand_pcg.specs.Pcg.{multiplier_64, pcg32};
    ghost use Rattle.lk_base.specs.Ids.{drawn_id, source_after};

    /// The source of the generator that is seeded so. Of the stream its lowest 63 bits count, and the increment
    /// is twice those and 1. The generator begins at state 0, which is advanced once, has the seed added, and is
    /// advanced once more.
    pub fn new(seed: u64, stream: u64) -> IdSource
        ensures { result ≡ started 64 multiplier_64 seed (increment_of 64 stream) }
    {
        IdSource {
            generator: Lcg64Xsh32::new(seed, stream),
        }
    }

    /// A new id of eight visible ASCII characters, from `!` (33) to `~` (126), one for each of the
    /// generator's next eight words. That they differ from those of other ids is likely and no more.
    pub fn draw(&mut self) -> NodeId
        ensures id { result ≡ drawn_id self.old }
        ensures visible { All (λ c. (33 ≤ c) × (c ≤ 126)) result.0 }
        ensures source { self.new ≡ source_after 8 self.old }
    {
        let mut characters = [0u8; 8];
        for k in 0..8 {
            characters[k] = self.character();
        }
        NodeId(characters)
    }

    fn character(&mut self) -> u8
        ensures value { result ≡ 33 + (pcg32 self.old).0 % 94 }
        ensures source { self.new ≡ (pcg32 self.old).1 }
    {
        (33 + self.generator.next_word() % 94) as u8
    }
}
