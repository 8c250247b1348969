//! The room of a live run.

ghost use Rattle.std.specs.Prelude.{◌≡◌, ◌<◌, ◌≤◌, ◌^◌, length, All, IfOk};
ghost use Rattle.link_script.specs.LiveScript.{IsCommand, app as app_command, block as block_command};
ghost use Rattle.link_live.specs.LiveRun.{IsReady, ScriptsHaveCommands};

use crate::audio::AudioReport;
use crate::script::ScriptReport;
use link_script::LiveScript;
use std::alloc::{AllocError, Global};

/// All room that a live run needs: for what the audio thread and the script's application tell.
#[derive(Drop)]
pub struct Room {
    pub audio: AudioReport,
    pub script: ScriptReport,
}

impl Room {
    /// The room of a run of this script that plays so many blocks at most. Memory: all of it.
    pub fn new(alloc: Global, script: &LiveScript, blocks: u64) -> Result<Room, AllocError>
        requires apps { All (λ command. IsCommand (app_command command)) script.now.apps.items }
        requires commands { All (λ command. IsCommand (block_command command)) script.now.blocks.items }
        requires few { (length script.now.blocks.items < 2 ^ 60) × (blocks ≤ 524_288) }
        ensures { IfOk result (IsReady script.now blocks) }
    {
        let places = blocks as usize;
        let apps = script.apps.len();
        Ok(Room {
            audio: AudioReport {
                reads: Vec::with_capacity(alloc, places)?,
                commits: Vec::with_capacity(alloc, script.blocks.len())?,
                plays: Vec::with_capacity(alloc, places)?,
            },
            script: ScriptReport {
                captures: Vec::with_capacity(alloc, apps)?,
                commits: Vec::with_capacity(alloc, apps)?,
            },
        })
    }
}

/// A law: a script that was read has commands for which there can be room.
pub fn scripts_have_commands()
    ensures { ScriptsHaveCommands }
{}
