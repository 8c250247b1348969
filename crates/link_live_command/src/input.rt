//! How a live script, or the head of one, is read to its end.

ghost use Rattle.std.specs.Prelude.{IfOk, IfErr};
ghost use Rattle.link_commands.specs.Statuses.{WasRead};
ghost use Rattle.link_live_command.specs.HeadRead.{IsHeadRead};
ghost use Rattle.link_live_command.specs.LiveSetup.{IsRead};
ghost use Rattle.link_live_command.specs.ScriptRead.{EndsHeadRead, EndsRead, EndsReadOf};

use link_commands::{Grammar, Reason, Status};
use link_script::LiveScript;
use link_text::{
    HeadFault, LiveFault, LiveHead, explain_head, explain_live, read_live, read_live_head,
};
use lk_outside::{InputFault, Source, read_all};
use std::alloc::Global;

/// How many bytes of a script are read at most.
const MOST_BYTES: usize = 16_777_216;

/// How many commands a script may have.
const MOST_COMMANDS: u64 = 4_096;

/// Reads a live script to its end; or says why there is none.
///
/// Waits: in the source's calls alone. Memory: the text, and the script.
pub fn read_script<S: Source>(alloc: Global, input: &mut S) -> Result<LiveScript, Status>
    ensures script { IfOk result (λ script. IsRead (S.seen input.old) (S.seen input.new) script) }
    ensures fault { IfErr result (EndsRead (S.seen input.old) (S.seen input.new)) }
{
    let text = match text_of(alloc, input) {
        Ok(text) => text,
        Err(status) => return Err(status),
    };
    match read_live(alloc, &text) {
        Ok(script) => Ok(script),
        Err(LiveFault::TooMany) => Err(Status::TooMany {
            limit: MOST_COMMANDS,
        }),
        Err(LiveFault::Bad(bad)) => Err(Status::Script {
            grammar: Grammar::LiveScript,
            line: bad.line,
            reason: Reason::Script(explain_live(&text, bad.line)),
        }),
        Err(LiveFault::Memory(_)) => Err(Status::Memory),
    }
}

/// Reads the head of a live script, behind which there is no command, to its end; or says why there is none.
///
/// Waits: in the source's calls alone. Memory: the text.
pub fn read_head<S: Source>(alloc: Global, input: &mut S) -> Result<LiveHead, Status>
    ensures head { IfOk result (λ head. IsHeadRead (S.seen input.old) (S.seen input.new) head) }
    ensures fault { IfErr result (EndsHeadRead (S.seen input.old) (S.seen input.new)) }
{
    let text = match text_of(alloc, input) {
        Ok(text) => text,
        Err(status) => return Err(status),
    };
    match read_live_head(&text) {
        Ok(head) => Ok(head),
        Err(HeadFault::TooMany) => Err(Status::TooMany {
            limit: MOST_COMMANDS,
        }),
        Err(HeadFault::Bad(bad)) => Err(Status::Script {
            grammar: Grammar::LiveHead,
            line: bad.line,
            reason: Reason::Script(explain_head(&text, bad.line)),
        }),
    }
}

// Reads a text to its end; or says why there is none.
fn text_of<S: Source>(alloc: Global, input: &mut S) -> Result<Vec<u8>, Status>
    ensures text { IfOk result (λ text. WasRead 16_777_216 (S.seen input.old) (S.seen input.new) text.items) }
    // No line of it is at fault: this can be said of a text of any grammar.
    ensures fault { IfErr result (EndsReadOf Grammar.LiveScript (λ text line. ⊥) (S.seen input.old) (S.seen input.new)) }
{
    match read_all(alloc, input, MOST_BYTES) {
        Ok(text) => Ok(text),
        Err(InputFault::Failed) => Err(Status::Input),
        Err(InputFault::TooLong) => Err(Status::TooLong {
            limit: MOST_BYTES as u64,
        }),
        Err(InputFault::Memory(_)) => Err(Status::Memory),
    }
}
