//! The words behind the program's name.

ghost use Rattle.std.specs.Prelude.{◌≡◌, ◌≢◌, ◌≤◌, ◌≤ℤ◌, ℕ, pos, unsigned_abs, List, [], ◌∷◌, length, map, All, Some, IfSome, IfNone};
ghost use Rattle.std.specs.String.{string_bytes};
ghost use Rattle.lk_base.specs.Endpoint.{IsEndpoint};
ghost use Rattle.lk_base.specs.declared.endpoint.Endpoint.{Endpoint as AnyEndpoint};
ghost use Rattle.link_lines.specs.Words.{endpoint_text_of};
ghost use Rattle.drum_machine.specs.Words.{AsksForSession, AsksForNone, SaysNumber};

use arrayvec::ArrayVec;
use link_lines::endpoint_of;
use link_node::GateSetup;
use lk_base::Endpoint;

/// The most blocks of 20 milliseconds that a session plays: 2 hours and 55 minutes.
const MOST_BLOCKS: u32 = 524_288;

/// The fastest tempo and the slowest, in microseconds per beat.
const FASTEST: u32 = 60_060;

const SLOWEST: u32 = 3_000_000;

/// What the words ask for.
#[derive(Drop)]
pub enum Words {
    /// None were given.
    Rehearsal,
    Session(Setup),
}

/// How a session is joined.
#[derive(Drop)]
pub struct Setup {
    /// How many blocks are played.
    pub blocks: u32,
    /// The tempo of the node's first session, in microseconds per beat.
    pub mpb: i64,
    /// Where peers reach it, and whom it tells of itself.
    pub gate: GateSetup,
    ghost some: { 1 ≤ blocks },
    ghost few: { blocks ≤ 524_288 },
    ghost fastest: { pos 60_060 ≤ℤ mpb },
    ghost slowest: { mpb ≤ℤ pos 3_000_000 },
}

/// What the words ask for; none where they are outside the usage that `Status::Words` tells.
pub fn read_words(words: &[String]) -> Option<Words>
    ensures rehearsal { result ≡ Some Words.Rehearsal → words.now ≡ [] }
    ensures session { (setup : Setup) → result ≡ Some (Words.Session setup) → AsksForSession (map string_bytes words.now)
        setup.blocks (unsigned_abs setup.mpb) setup.gate.local setup.gate.peers.items }
    ensures none { IfNone result ((words.now ≢ []) × AsksForNone (map string_bytes words.now)) }
{
    if words.is_empty() {
        return Some(Words::Rehearsal);
    }
    if words.len() < 3 {
        return None;
    }
    let setup = session_of(
        words[0].as_str(),
        words[1].as_str(),
        words[2].as_str(),
        &words[3..],
    )?;
    Some(Words::Session(setup))
}

// The session that the words ask for.
fn session_of(blocks: &str, tempo: &str, local: &str, peers: &[String]) -> Option<Setup>
    ensures some { IfSome result (λ setup. AsksForSession (blocks.now ∷ tempo.now ∷ local.now ∷ map string_bytes peers.now)
        setup.blocks (unsigned_abs setup.mpb) setup.gate.local setup.gate.peers.items) }
    ensures none { IfNone result (AsksForNone (blocks.now ∷ tempo.now ∷ local.now ∷ map string_bytes peers.now)) }
{
    let blocks = number_in(blocks, 1, MOST_BLOCKS)?;
    let mpb = number_in(tempo, FASTEST, SLOWEST)?;
    let local = endpoint_of(local.as_bytes())?;
    let peers = endpoints_of(peers)?;
    Some(Setup {
        blocks,
        mpb: i64::from(mpb),
        gate: GateSetup { local, peers },
    })
}

// The number that a word says, from the least to the most.
fn number_in(word: &str, least: u32, most: u32) -> Option<u32>
    ensures some { IfSome result (λ n. SaysNumber word.now n × (least ≤ n) × (n ≤ most)) }
    ensures none { IfNone result ((n : ℕ) → SaysNumber word.now n → least ≤ n → n ≤ most → ⊥) }
{
    match word.parse::<u32>() {
        Ok(n) => if least <= n && n <= most {
            Some(n)
        } else {
            None
        },
        Err(_) => None,
    }
}

// The endpoints that words say, at most 32.
fn endpoints_of(words: &[String]) -> Option<ArrayVec<Endpoint, 32>>
    ensures some { IfSome result (λ peers. (map string_bytes words.now ≡ map endpoint_text_of peers.items) × All IsEndpoint peers.items
        × (length peers.items ≤ 32)) }
    ensures none { IfNone result ((peers : List AnyEndpoint) → map string_bytes words.now ≡ map endpoint_text_of peers
        → All IsEndpoint peers → length peers ≤ 32 → ⊥) }
{
    if words.len() > 32 {
        return None;
    }
    let mut peers = ArrayVec::new();
    for word in words {
        peers.push(endpoint_of(word.as_bytes())?);
    }
    Some(peers)
}
