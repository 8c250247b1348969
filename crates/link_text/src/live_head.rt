//! Heads of live scripts: reading one that has no command behind it.

ghost use Rattle.std.specs.Prelude.{◌≤◌, ◌<◌, ◌-◌, ◌^◌, length, map, IfOk, IfErr, IsErrOf};
ghost use Rattle.link_node.specs.Config.{gate_value};
ghost use Rattle.link_text.specs.LiveHead.{IsHeadLineFault, IsHeadText};
ghost use Rattle.link_script.specs.LiveScript.{commands_told};

use crate::fault::BadLine;
use crate::live_script::{MOST_COMMANDS, Start, commands_in, start_of};
use crate::place::Place;
use arrayvec::ArrayVec;
use link_node::GateSetup;

/// The head of a live script, read to its end.
#[derive(Debug, Drop)]
pub struct LiveHead {
    /// The tempo of the first session, in microseconds per beat.
    pub mpb: i64,
    /// Whether starts are shared with the session.
    pub sync: bool,
    pub gates: ArrayVec<GateSetup, 4>,
}

/// Why a text was not read as a head.
#[derive(Clone, Copy, Debug, PartialEq, Eq)]
pub enum HeadFault {
    /// More than 4,096 lines begin as those of commands.
    TooMany,
    /// The first line outside the grammar.
    Bad(BadLine),
}

/// Reads the head of a live script, behind which there is no command; or the first line at fault, unless too many lines begin as those of
/// commands. Empty lines and those that begin with `#` are passed over. Memory: none.
pub fn read_live_head(text: &[u8]) -> Result<LiveHead, HeadFault>
    requires { length text.now ≤ 2 ^ 32 - 2 }
    ensures head { IfOk result (λ head. IsHeadText text.now head.mpb head.sync (map gate_value head.gates.items)) }
    ensures few { IfOk result (λ head. commands_told text.now ≤ 4_096) }
    ensures too_many { IsErrOf result HeadFault.TooMany → 4_096 < commands_told text.now }
    ensures bad { (bad : BadLine) → IsErrOf result (HeadFault.Bad bad)
        → (commands_told text.now ≤ 4_096) × IsHeadLineFault text.now bad.line }
{
    if commands_in(text) > MOST_COMMANDS {
        return Err(HeadFault::TooMany);
    }
    match whole_head(text) {
        Ok(start) => Ok(LiveHead {
            mpb: start.mpb,
            sync: start.sync,
            gates: start.gates,
        }),
        Err(place) => Err(HeadFault::Bad(BadLine {
            line: place.number as u32,
        })),
    }
}

// The head, behind which no line counts, or the place of the first line at fault.
fn whole_head(text: &[u8]) -> Result<Start, Place>
    requires { length text.now ≤ 2 ^ 32 - 2 }
    ensures head { IfOk result (λ start. IsHeadText text.now start.mpb start.sync (map gate_value start.gates.items)) }
    ensures fault { IfErr result (λ place. IsHeadLineFault text.now place.number) }
{
    let start = match start_of(text) {
        Ok(start) => start,
        Err(place) => return Err(place),
    };
    if start.behind.at < text.len() {
        return Err(start.behind);
    }
    Ok(start)
}
