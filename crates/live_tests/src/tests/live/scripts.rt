//! Live scripts.

ghost use Rattle.std.specs.Prelude.{◌≤◌, All, IfOk, length};
ghost use Rattle.link_script.specs.LiveScript.{IsCommand, app as app_command, block as block_command};

use arrayvec::ArrayVec;
use link_live::scripts_have_commands;
use link_script::LiveScript;
use link_text::{LiveFault, read_live};
use std::alloc::Global;

/// What a script says before its commands.
const HEAD: &[u8] = b"link 1\nsetup 500000 1\ngate 10.0.0.1:10\n";

/// The script of these commands, of which 99 at most are of the audio thread.
pub fn script_of(alloc: Global, commands: &str) -> Result<LiveScript, LiveFault>
    ensures apps { IfOk result (λ script. All (λ command. IsCommand (app_command command)) script.apps.items) }
    ensures commands { IfOk result (λ script. All (λ command. IsCommand (block_command command)) script.blocks.items) }
    ensures few { IfOk result (λ script. length script.blocks.items ≤ 99) }
{
    let mut text = ArrayVec::<u8, 600>::new();
    let _head = text.try_extend_from_slice(HEAD);
    let _commands = text.try_extend_from_slice(commands.as_bytes());
    // A law, for the proof.
    scripts_have_commands();
    let script = read_live(alloc, &text)?;
    if script.blocks.len() > 99 {
        return Err(LiveFault::TooMany);
    }
    Ok(script)
}
