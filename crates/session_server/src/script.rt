//! The head of a live script, from a file.

ghost use Rattle.std.specs.Prelude.{List, ℕ, map, IfOk};
ghost use Rattle.lk_outside.specs.Transfer.{ReadsWhole};
ghost use Rattle.link_node.specs.Config.{gate_value};
ghost use Rattle.link_script.specs.LiveScript.{IsLiveHead};
ghost use Rattle.link_text.specs.LiveHead.{IsHeadText};

use crate::status::Status;
use link_text::{HeadFault, LiveHead, Reason, explain_head, read_live_head};
use lk_outside::{InputFault, Source, read_all};
use std::alloc::Global;
use std::fmt;

/// How many bytes of a script are read at most.
const MOST_BYTES: usize = 16_777_216;

/// Why a script says no head.
#[derive(Clone, Copy, Debug)]
pub enum ScriptFault {
    /// It could not be read.
    Unread,
    TooLong,
    /// It has commands, and too many of them.
    Commands,
    /// Its line of this number is the first at fault.
    Line(u32, Reason),
    Memory,
}

/// Reads the head of a live script, behind which there is no command, to its end; or says why there is none.
///
/// Waits: in the source's calls alone. Memory: the text.
pub fn read_script<S: Source>(alloc: Global, input: &mut S) -> Result<LiveHead, ScriptFault>
    ensures head { IfOk result (λ head. (text : List ℕ) × ReadsWhole (S.seen input.old).told text (S.seen input.new).told
        × IsHeadText text head.mpb head.sync (map gate_value head.gates.items)) }
    ensures opens { IfOk result (λ head. IsLiveHead head.mpb (map gate_value head.gates.items)) }
{
    let text = match read_all(alloc, input, MOST_BYTES) {
        Ok(text) => text,
        Err(InputFault::Failed) => return Err(ScriptFault::Unread),
        Err(InputFault::TooLong) => return Err(ScriptFault::TooLong),
        Err(InputFault::Memory(_)) => return Err(ScriptFault::Memory),
    };
    match read_live_head(&text) {
        Ok(head) => Ok(head),
        Err(HeadFault::TooMany) => Err(ScriptFault::Commands),
        Err(HeadFault::Bad(bad)) => Err(ScriptFault::Line(bad.line, explain_head(&text, bad.line))),
    }
}

impl ScriptFault {
    /// How a run ends for it.
    pub fn status(&self) -> Status {
        match self {
            ScriptFault::Unread => Status::Input,
            ScriptFault::TooLong | ScriptFault::Commands => Status::TooLong,
            ScriptFault::Line(_, _) => Status::Script,
            ScriptFault::Memory => Status::Memory,
        }
    }
}

impl fmt::Display for ScriptFault {
    fn fmt<W: fmt::Write>(&self, f: &mut fmt::Formatter<W>) -> fmt::Result {
        match self {
            ScriptFault::Unread => f.write_str("it could not be read"),
            ScriptFault::TooLong => write!(f, "it has more than {MOST_BYTES} bytes"),
            ScriptFault::Commands => f.write_str("it has commands, and only a head is taken"),
            ScriptFault::Line(line, reason) => {
                let (line, reason) = (*line, *reason);
                write!(f, "line {line}, {reason}")
            }
            ScriptFault::Memory => f.write_str("no memory was left"),
        }
    }
}
