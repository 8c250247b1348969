//! The words behind the program's name.

ghost use Rattle.std.specs.Prelude.{◌≡◌, ◌≤◌, ◌≤ℤ◌, ℕ, pos, true, unsigned_abs, List, length, map, drop, All, Some, slice_get, IfOk, IfErr, IfSome, IfNone};
ghost use Rattle.std.specs.String.{string_bytes};
ghost use Rattle.lk_base.specs.Endpoint.{IsEndpoint};
ghost use Rattle.lk_base.specs.Ranges.{IsQuantum};
ghost use Rattle.link_lines.specs.Words.{endpoint_text_of};
ghost use Rattle.midi_clock.specs.Words as spec;
ghost use Rattle.midi_clock.specs.Words.{AsksFor, IsFaultIn, SaysNumber, SaysOption, SaysSeconds, SaysTempo, places_of, values_of};

use arrayvec::ArrayVec;
use link_lines::endpoint_of;
use link_node::GateSetup;
use lk_base::Endpoint;
use std::fmt;

/// The most seconds that it plays: those of a day.
const MOST_SECONDS: u64 = 86_400;

/// The fastest tempo and the slowest, in microseconds per beat.
const FASTEST: u64 = 60_060;

const SLOWEST: u64 = 3_000_000;

/// The longest quantum, in microbeats, and the one that counts where none is given.
const QUANTUM_MAX: u64 = 1 << 40;

const QUANTUM: u64 = 4_000_000;

/// The greatest number of a group.
const GROUP_MAX: u64 = 65_535;

/// The place of the first peer, counted from 0.
const FIRST_PEER: usize = 3;

/// How a session is joined.
#[derive(Drop)]
pub struct Setup {
    pub seconds: u32,
    /// The tempo of the node's first session, in microseconds per beat.
    pub mpb: i64,
    /// The length in microbeats that bars are counted in at first; 0 is none.
    pub quantum: i64,
    /// The group of the messages that are heard and sent.
    pub group: u16,
    /// Where peers reach it, and whom it tells of itself.
    pub gate: GateSetup,
    ghost some: { 1 ≤ seconds },
    ghost few: { seconds ≤ 86_400 },
    ghost fastest: { pos 60_060 ≤ℤ mpb },
    ghost slowest: { mpb ≤ℤ pos 3_000_000 },
    ghost bars: { IsQuantum quantum },
}

/// Why words ask for nothing: the word of a place is missing, or isn't what it has to be; peers are counted from 0.
#[derive(Clone, Copy, Debug, PartialEq, Eq)]
pub enum WordsFault {
    NoSeconds,
    Seconds,
    NoTempo,
    Tempo,
    NoLocal,
    Local,
    Peer(usize),
    /// There are more than 32.
    Peers,
    Quantum,
    Group,
}

/// What the words ask for, or what is wrong with them.
///
/// Waits: no. Memory: none.
pub fn read_words(words: &[String]) -> Result<Setup, WordsFault>
    ensures asks { IfOk result (λ setup. AsksFor (map string_bytes words.now) setup.seconds (unsigned_abs setup.mpb)
        (unsigned_abs setup.quantum) setup.group setup.gate.local setup.gate.peers.items) }
    ensures fault { IfErr result (IsFaultIn (map string_bytes words.now)) }
{
    let seconds = seconds_of(words)?;
    let mpb = tempo_of(words)?;
    let local = local_of(words)?;
    let peers = peers_of(words)?;
    let Some(quantum) = option_in(words, "--quantum", QUANTUM_MAX, QUANTUM) else {
        return Err(WordsFault::Quantum);
    };
    let Some(group) = option_in(words, "--group", GROUP_MAX, 0) else {
        return Err(WordsFault::Group);
    };
    Ok(Setup {
        seconds: seconds as u32,
        mpb: mpb as i64,
        quantum: quantum as i64,
        group: group as u16,
        gate: GateSetup { local, peers },
    })
}

fn seconds_of(words: &[String]) -> Result<u64, WordsFault>
    ensures says { IfOk result (λ n. (text : List ℕ) × (slice_get (places_of (map string_bytes words.now)) 0 ≡ Some text) × SaysSeconds text n) }
    ensures fault { IfErr result (IsFaultIn (map string_bytes words.now)) }
{
    let Some(word) = place(words, 0) else {
        return Err(WordsFault::NoSeconds);
    };
    match number_in(word, 1, MOST_SECONDS) {
        Some(seconds) => Ok(seconds),
        None => Err(WordsFault::Seconds),
    }
}

fn tempo_of(words: &[String]) -> Result<u64, WordsFault>
    ensures says { IfOk result (λ n. (text : List ℕ) × (slice_get (places_of (map string_bytes words.now)) 1 ≡ Some text) × SaysTempo text n) }
    ensures fault { IfErr result (IsFaultIn (map string_bytes words.now)) }
{
    let Some(word) = place(words, 1) else {
        return Err(WordsFault::NoTempo);
    };
    match number_in(word, FASTEST, SLOWEST) {
        Some(mpb) => Ok(mpb),
        None => Err(WordsFault::Tempo),
    }
}

fn local_of(words: &[String]) -> Result<Endpoint, WordsFault>
    ensures says { IfOk result (λ e. IsEndpoint e × (slice_get (places_of (map string_bytes words.now)) 2 ≡ Some (endpoint_text_of e))) }
    ensures fault { IfErr result (IsFaultIn (map string_bytes words.now)) }
{
    let Some(word) = place(words, 2) else {
        return Err(WordsFault::NoLocal);
    };
    match endpoint_of(word.as_bytes()) {
        Some(local) => Ok(local),
        None => Err(WordsFault::Local),
    }
}

fn peers_of(words: &[String]) -> Result<ArrayVec<Endpoint, 32>, WordsFault>
    ensures says { IfOk result (λ peers. (drop 3 (places_of (map string_bytes words.now)) ≡ map endpoint_text_of peers.items)
        × All IsEndpoint peers.items × (length peers.items ≤ 32)) }
    ensures fault { IfErr result (IsFaultIn (map string_bytes words.now)) }
{
    let mut peers = ArrayVec::new();
    while peers.len() < 32 {
        let number = peers.len();
        let Some(word) = place(words, FIRST_PEER + number) else {
            return Ok(peers);
        };
        let Some(peer) = endpoint_of(word.as_bytes()) else {
            return Err(WordsFault::Peer(number));
        };
        peers.push(peer);
    }
    match place(words, FIRST_PEER + 32) {
        Some(_) => Err(WordsFault::Peers),
        None => Ok(peers),
    }
}

// The number that the option of a name says, from 0 to the most, or its default; none where it says none, or is given more than once.
fn option_in(words: &[String], name: &str, most: u64, default: u64) -> Option<u64>
    requires { spec.is_option name.now ≡ true }
    ensures some { IfSome result (SaysOption (map string_bytes words.now) name.now most default) }
    ensures none { IfNone result ((n : ℕ) → SaysOption (map string_bytes words.now) name.now most default n → ⊥) }
{
    if value(words, name, 1).is_some() {
        return None;
    }
    match value(words, name, 0) {
        Some(word) => number_in(word, 0, most),
        None => Some(default),
    }
}

// The number that a word says, from the least to the most.
fn number_in(word: &str, least: u64, most: u64) -> Option<u64>
    ensures some { IfSome result (SaysNumber word.now least most) }
    ensures none { IfNone result ((n : ℕ) → SaysNumber word.now least most n → ⊥) }
{
    match word.parse::<u64>() {
        Ok(n) => if least <= n && n <= most {
            Some(n)
        } else {
            None
        },
        Err(_) => None,
    }
}

// Whether a word is the name of an option.
#[tactic(auto, unfolding(crate::specs::Words::is_option))]
fn is_option(word: &str) -> bool
    ensures { result ≡ spec.is_option word.now }
{
    word == "--quantum" || word == "--group"
}

/// The word in a place, counted from 0, among those that are neither the name of an option nor its value.
pub fn place<'a>(words: &'a [String], number: usize) -> Option<&'a str>
    ensures some { IfSome result (λ word. slice_get (places_of (map string_bytes words.now)) number ≡ Some word.now) }
    ensures none { IfNone result (length (places_of (map string_bytes words.now)) ≤ number) }
{
    let mut at = 0;
    let mut left = number;
    while at < words.len() {
        let word = words[at].as_str();
        if is_option(word) {
            at += 1;
        } else if left == 0 {
            return Some(word);
        } else {
            left -= 1;
        }
        at += 1;
    }
    None
}

// The value that is given to the option of a name, counted from 0; an empty one where the name comes last.
fn value<'a>(words: &'a [String], name: &str, number: usize) -> Option<&'a str>
    requires { spec.is_option name.now ≡ true }
    ensures some { IfSome result (λ word. slice_get (values_of name.now (map string_bytes words.now)) number ≡ Some word.now) }
    ensures none { IfNone result (length (values_of name.now (map string_bytes words.now)) ≤ number) }
{
    let mut at = 0;
    let mut left = number;
    while at < words.len() {
        let word = words[at].as_str();
        if word == name {
            if left == 0 {
                return Some(words.get(at + 1).map_or("", |value| value.as_str()));
            }
            left -= 1;
            at += 1;
        } else if is_option(word) {
            at += 1;
        }
        at += 1;
    }
    None
}

/// Words with what is wrong with them, as it is told to a person.
#[derive(Clone, Copy)]
pub struct Wrong<'a> {
    pub words: &'a [String],
    pub fault: WordsFault,
}

impl<'a> fmt::Display for Wrong<'a> {
    fn fmt<W: fmt::Write>(&self, f: &mut fmt::Formatter<W>) -> fmt::Result {
        match self.fault {
            WordsFault::NoSeconds => {
                f.write_str("the seconds are missing: a whole number from 1 to 86400")
            }
            WordsFault::Seconds => put_wrong(
                f,
                self.words,
                0,
                "how many seconds it plays, a whole number from 1 to 86400",
            ),
            WordsFault::NoTempo => f.write_str(
                "the tempo is missing: microseconds per beat, from 60060 to 3000000",
            ),
            WordsFault::Tempo => put_wrong(
                f,
                self.words,
                1,
                "the tempo in microseconds per beat, from 60060 to 3000000",
            ),
            WordsFault::NoLocal => f.write_str("its own address is missing: as 127.0.0.1:18001"),
            WordsFault::Local => {
                put_wrong(f, self.words, 2, "where peers reach it, as 127.0.0.1:18001")
            }
            WordsFault::Peer(number) => put_wrong(
                f,
                self.words,
                number.saturating_add(FIRST_PEER),
                "where a peer listens, as 127.0.0.1:20808",
            ),
            WordsFault::Peers => f.write_str("there are more than 32 peers"),
            WordsFault::Quantum => f.write_str(
                "--quantum has to have one number of microbeats behind it, from 0 to 1099511627776",
            ),
            WordsFault::Group => {
                f.write_str("--group has to have one number behind it, from 0 to 65535")
            }
        }
    }
}

// Writes the word in a place, and what it has to be.
fn put_wrong<W: fmt::Write>(
    f: &mut fmt::Formatter<W>,
    words: &[String],
    number: usize,
    right: &str,
) -> fmt::Result {
    let word = place(words, number).unwrap_or_default();
    write!(f, "\"{word}\" has to be {right}")
}
