//! Live scripts: reading one, to commands of the application and of the audio thread.

ghost use Rattle.std.specs.Prelude.{◌≡◌, ◌≤◌, ◌<◌, ◌+◌, ◌-◌, ◌^◌, ◌∷◌, [], ℕ, ℤ, Bool, true, false, List, length, map, vec_len, vec_capacity, IsTrue, IfOk, IfErr, IsErrOf, IfSome, IfNone};
ghost use Rattle.link_node.specs.Config.{gate_value};
ghost use Rattle.link_text.specs.LiveParts.{HasBadCommand, HasCommands, IsLiveStart, IsStartFault, TakesCommand, lines_told};
ghost use Rattle.link_script.specs.LiveScript.{Command, IsCommand, IsLiveLineFault, IsLiveText, IsTempo, begins_command, command_line, commands_told, live_version_line, setup_line};
ghost use Rattle.link_text.specs.Places.{IsAhead, counting_from};

use crate::fault::BadLine;
use crate::head_read::{gates_from, next_line};
use crate::live_read::{
    app_command_of, begins_command, block_command_of, is_live_version_line, setup_of,
};
use crate::place::{Place, first_place, line_from};
use arrayvec::ArrayVec;
use link_lines::line_at;
use link_node::GateSetup;
use link_script::{AppCommand, BlockCommand, LiveScript};
use std::alloc::{AllocError, Global};

/// How many commands a script may have.
pub(crate) const MOST_COMMANDS: usize = 4_096;

/// Why a text was not read.
#[derive(Clone, Copy, Debug, PartialEq, Eq)]
pub enum LiveFault {
    /// More than 4,096 lines begin as those of commands.
    TooMany,
    /// The first line outside the grammar.
    Bad(BadLine),
    Memory(AllocError),
}

/// Reads a live script to its end; or the first line at fault, unless too many lines begin as those of commands. Empty lines and
/// those that begin with `#` are passed over. Memory: the commands.
pub fn read_live(alloc: Global, text: &[u8]) -> Result<LiveScript, LiveFault>
    requires { length text.now ≤ 2 ^ 32 - 2 }
    ensures script { IfOk result (λ script. IsLiveText text.now script.mpb script.sync (map gate_value script.gates.items)
        script.apps.items script.blocks.items) }
    ensures few { IfOk result (λ script. commands_told text.now ≤ 4_096) }
    ensures too_many { IsErrOf result LiveFault.TooMany → 4_096 < commands_told text.now }
    ensures bad { (bad : BadLine) → IsErrOf result (LiveFault.Bad bad)
        → (commands_told text.now ≤ 4_096) × IsLiveLineFault text.now bad.line }
{
    let count = commands_in(text);
    if count > MOST_COMMANDS {
        return Err(LiveFault::TooMany);
    }
    let mut apps = Vec::with_capacity(alloc, count).map_err(LiveFault::Memory)?;
    let mut blocks = Vec::with_capacity(alloc, count).map_err(LiveFault::Memory)?;
    match read_lines(text, &mut apps, &mut blocks) {
        Ok(start) => Ok(LiveScript {
            mpb: start.mpb,
            sync: start.sync,
            gates: start.gates,
            apps,
            blocks,
        }),
        Err(place) => Err(LiveFault::Bad(BadLine {
            line: place.number as u32,
        })),
    }
}

/// How many lines begin as those of commands.
pub(crate) fn commands_in(text: &[u8]) -> usize
    ensures { result ≡ commands_told text.now }
{
    let mut count = 0;
    let mut at = 0;
    while at < text.len() {
        let (line, next) = line_at(text, at);
        if begins_command(line) {
            count += 1;
        }
        at = next;
    }
    count
}

/// What stands before the commands.
#[derive(Drop)]
pub(crate) struct Start {
    pub mpb: i64,
    pub sync: bool,
    pub gates: ArrayVec<GateSetup, 4>,
    pub behind: Place,
}

// The whole script, or the place of the first line at fault.
fn read_lines(
    text: &[u8],
    apps: &mut Vec<AppCommand>,
    blocks: &mut Vec<BlockCommand>,
) -> Result<Start, Place>
    requires short { length text.now ≤ 2 ^ 32 - 2 }
    requires no_apps { apps.old.items ≡ [] }
    requires no_blocks { blocks.old.items ≡ [] }
    requires room_for_apps { commands_told text.now ≤ vec_capacity apps.old }
    requires room_for_blocks { commands_told text.now ≤ vec_capacity blocks.old }
    ensures script { IfOk result (λ start. IsLiveText text.now start.mpb start.sync (map gate_value start.gates.items)
        apps.new.items blocks.new.items) }
    ensures fault { IfErr result (λ place. IsLiveLineFault text.now place.number) }
{
    let start = match start_of(text) {
        Ok(start) => start,
        Err(place) => return Err(place),
    };
    if let Err(place) = commands_from(text, start.behind, apps, blocks) {
        return Err(place);
    }
    Ok(start)
}

/// What stands before the commands, or the place of the first line at fault, whether commands may follow or not.
pub(crate) fn start_of(text: &[u8]) -> Result<Start, Place>
    requires { length text.now ≤ 2 ^ 32 - 2 }
    ensures start { IfOk result (λ start.
        IsLiveStart text.now start.mpb start.sync (map gate_value start.gates.items) start.behind) }
    ensures fault { IfErr result (λ place. IsStartFault text.now place.number) }
{
    let first = first_place(text);
    let Some(second) = behind_version(text, first) else {
        return Err(first);
    };
    let Some((mpb, sync, third)) = setup_from(text, second) else {
        return Err(second);
    };
    let (gates, behind) = gates_from(text, third);
    if gates.is_empty() {
        return Err(third);
    }
    Ok(Start {
        mpb,
        sync,
        gates,
        behind,
    })
}

// The place behind the version line, if that is the next one.
fn behind_version(text: &[u8], place: Place) -> Option<Place>
    requires { IsAhead text.now place }
    ensures ahead { IfSome result (IsAhead text.now) }
    ensures some { IfSome result (λ next.
        counting_from text.now place.at ≡ live_version_line ∷ counting_from text.now next.at) }
    ensures none { IfNone result ((rest : List (List ℕ))
        → counting_from text.now place.at ≡ live_version_line ∷ rest → ⊥) }
{
    let (line, next) = next_line(text, place)?;
    if !is_live_version_line(line) {
        return None;
    }
    Some(next)
}

// What the setup's line says and the place behind it, if that is the next one.
fn setup_from(text: &[u8], place: Place) -> Option<(i64, bool, Place)>
    requires { IsAhead text.now place }
    ensures ahead { IfSome result (λ found. IsAhead text.now found.2) }
    ensures some { IfSome result (λ found. IsTempo found.0
        × (counting_from text.now place.at ≡ setup_line found.0 found.1 ∷ counting_from text.now found.2.at)) }
    ensures none { IfNone result ((mpb : ℤ) (sync : Bool) (rest : List (List ℕ)) → IsTempo mpb
        → counting_from text.now place.at ≡ setup_line mpb sync ∷ rest → ⊥) }
{
    let (line, next) = next_line(text, place)?;
    let (mpb, sync) = setup_of(line)?;
    Some((mpb, sync, next))
}

// Takes the commands of all lines from a place on; the error is the first that says none.
fn commands_from(
    text: &[u8],
    start: Place,
    apps: &mut Vec<AppCommand>,
    blocks: &mut Vec<BlockCommand>,
) -> Result<(), Place>
    requires ahead { IsAhead text.now start }
    requires no_apps { apps.old.items ≡ [] }
    requires no_blocks { blocks.old.items ≡ [] }
    requires room_for_apps { lines_told (counting_from text.now start.at) ≤ vec_capacity apps.old }
    requires room_for_blocks { lines_told (counting_from text.now start.at) ≤ vec_capacity blocks.old }
    ensures commands { IfOk result (λ done. HasCommands (counting_from text.now start.at) apps.new.items blocks.new.items []) }
    ensures fault { IfErr result (HasBadCommand text.now (counting_from text.now start.at)) }
{
    let mut place = start;
    while place.at < text.len() {
        let (line, next) = line_from(text, place);
        if !take_command(line, apps, blocks) {
            return Err(place);
        }
        place = next;
    }
    Ok(())
}

// Takes the command that a line says, if it says one.
fn take_command(line: &[u8], apps: &mut Vec<AppCommand>, blocks: &mut Vec<BlockCommand>) -> bool
    requires room_for_apps { begins_command line.now ≡ true → vec_len apps.old < vec_capacity apps.old }
    requires room_for_blocks { begins_command line.now ≡ true → vec_len blocks.old < vec_capacity blocks.old }
    ensures taken { IsTrue result → TakesCommand line.now apps.old.items apps.new.items blocks.old.items blocks.new.items }
    ensures not_taken { result ≡ false → (command : Command) → IsCommand command → line.now ≡ command_line command → ⊥ }
    ensures apps_fit { (vec_capacity apps.new ≡ vec_capacity apps.old) × (vec_len apps.new ≤ vec_len apps.old + 1) }
    ensures blocks_fit { (vec_capacity blocks.new ≡ vec_capacity blocks.old) × (vec_len blocks.new ≤ vec_len blocks.old + 1) }
{
    if let Some(command) = app_command_of(line) {
        apps.push_reserved(command);
        return true;
    }
    if let Some(command) = block_command_of(line) {
        blocks.push_reserved(command);
        return true;
    }
    false
}
