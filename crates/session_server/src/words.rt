//! What the words behind the program's name ask for.

ghost use Rattle.std.specs.Prelude.{◌≡◌, [], ◌∷◌, true, map, codes, IfOk, IfErr, IfSome};
ghost use Rattle.std.specs.String.{string_bytes};
ghost use Rattle.lk_base.specs.Endpoint.{IsEndpoint};
ghost use Rattle.link_node.specs.Config.{gate_value};
ghost use Rattle.link_script.specs.LiveScript.{IsLiveHead};
ghost use Rattle.session_server.specs.Words.{AsksFor, IsFaultIn, PartValue, SaysEndpoint, SaysFile, SaysFlag, SaysGates, SaysNoHead, SaysTempo, parts_with};

use crate::fault::WordsFault;
use crate::gates::gates_of;
use crate::options::{file_in, flag_in, option_in, span_in, tempo_in};
use crate::parts::{is_given, sole};
use crate::setup::Setup;
use link_lines::endpoint_of;
use link_text::LiveHead;
use lk_base::Endpoint;

/// The longest quantum, in microbeats, and the one that counts where none is given.
const QUANTUM_MAX: u64 = 1 << 40;

const QUANTUM: u64 = 4_000_000;

/// The greatest number of a group.
const GROUP_MAX: u64 = 65_535;

/// The most events that a journal takes.
const EVENTS: u64 = 524_288;

/// What the words ask for, or what is wrong with them. Where a script is given, its head is to stand for what the setup opens with.
///
/// Waits: no. Memory: none.
pub fn read_words(words: &[String]) -> Result<Setup, WordsFault>
    ensures asks { IfOk result (AsksFor (map string_bytes words.now)) }
    ensures fault { IfErr result (IsFaultIn (map string_bytes words.now)) }
{
    let at = endpoint_in(words)?;
    let opening = opening_in(words)?;
    let _script = script_in(words)?;
    let Some(quantum) = option_in(words, "--quantum", 0, QUANTUM_MAX, QUANTUM) else {
        return Err(WordsFault::Quantum);
    };
    let Some(group) = option_in(words, "--group", 0, GROUP_MAX, 0) else {
        return Err(WordsFault::Group);
    };
    let Some(events) = option_in(words, "--events", 1, EVENTS, EVENTS) else {
        return Err(WordsFault::Events);
    };
    let lasts = span_in(words)?;
    let Some(_secret) = file_in(words, "--secret") else {
        return Err(WordsFault::Secret);
    };
    let Some(may_end) = flag_in(words, "--end-allowed") else {
        return Err(WordsFault::EndAllowed);
    };
    let Some(until_input_ends) = flag_in(words, "--until-input-ends") else {
        return Err(WordsFault::UntilInputEnds);
    };
    Ok(Setup {
        at,
        opening,
        quantum: quantum as i64,
        group: group as u16,
        events,
        lasts,
        may_end,
        until_input_ends,
    })
}

/// The value of the option of a name, if it is given once.
///
/// Waits: no. Memory: none.
pub fn value_of<'a>(words: &'a [String], name: &str) -> Option<&'a str>
    ensures { IfSome result (λ text. (given : PartValue) × (parts_with name.now (map string_bytes words.now) ≡ given ∷ []) × (given.text ≡ text.now)) }
{
    match sole(words, name, name) {
        Ok(Some(given)) => Some(given.text),
        _ => None,
    }
}

// Where clients are listened for.
fn endpoint_in(words: &[String]) -> Result<Endpoint, WordsFault>
    ensures says { IfOk result (λ at. IsEndpoint at × SaysEndpoint (map string_bytes words.now) at) }
    ensures fault { IfErr result (IsFaultIn (map string_bytes words.now)) }
{
    let Ok(given) = sole(words, "", "") else {
        return Err(WordsFault::TooMuch);
    };
    let Some(given) = given else {
        return Err(WordsFault::NoEndpoint);
    };
    match endpoint_of(given.text.as_bytes()) {
        Some(at) => Ok(at),
        None => Err(WordsFault::Endpoint),
    }
}

// What the node opens with, by the words alone.
fn opening_in(words: &[String]) -> Result<LiveHead, WordsFault>
    ensures says { IfOk result (λ head. SaysGates (map string_bytes words.now) (map gate_value head.gates.items)
        × SaysTempo (map string_bytes words.now) head.mpb × SaysFlag (map string_bytes words.now) (codes "--sync") head.sync) }
    ensures opens { IfOk result (λ head. IsLiveHead head.mpb (map gate_value head.gates.items)) }
    ensures fault { IfErr result (IsFaultIn (map string_bytes words.now)) }
{
    let gates = gates_of(words)?;
    let Some(mpb) = tempo_in(words) else {
        return Err(WordsFault::Tempo);
    };
    let Some(sync) = flag_in(words, "--sync") else {
        return Err(WordsFault::Sync);
    };
    Ok(LiveHead { mpb, sync, gates })
}

// Whether a script is given, beside which there is nothing that it stands for.
fn script_in(words: &[String]) -> Result<bool, WordsFault>
    ensures says { IfOk result (SaysFile (map string_bytes words.now) (codes "--script")) }
    ensures alone { IfOk result (λ script. script ≡ true → SaysNoHead (map string_bytes words.now)) }
    ensures fault { IfErr result (IsFaultIn (map string_bytes words.now)) }
{
    let Some(script) = file_in(words, "--script") else {
        return Err(WordsFault::Script);
    };
    let head = is_given(words, "--gate", "--to")
        || is_given(words, "--mpb", "--bpm")
        || is_given(words, "--sync", "--sync");
    if script && head {
        return Err(WordsFault::Beside);
    }
    Ok(script)
}
