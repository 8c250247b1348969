//! The loop of an application that takes its commands from a live script.

ghost use Rattle.std.specs.Prelude.{◌≡◌, ◌≤◌, ◌<◌, ◌+◌, ℕ, List, [], None, if◌then◌else◌, true, length, All, vec_capacity, vec_len};
ghost use Rattle.link_script.specs.LiveScript.{IsCommand, app as app_command};
ghost use Rattle.link_script.specs.declared.live_script.AppCommand.{AppCommand as AnyCommand};
ghost use Rattle.link_live.specs.ScriptRun.{IsScriptRun, is_look};
ghost use Rattle.link_live.specs.TakingRun.{IsCommandAt, IsTaking};

use crate::edit::commit_of;
use crate::handing::{ask_to_end, hand_over};
use audio_handoff::StateCell;
use client_state::Commit;
use link_script::{Act, AppCommand, LiveScript};
use link_shared::{AppPass, Capture, Link, LinkName};
use lk_outside::Pace;
use std::alloc::Global;
use std::sync::Wait;

/// What the application did, in order.
#[derive(Debug, Drop)]
pub struct ScriptReport {
    /// For each command that was taken, what was captured.
    pub captures: Vec<Capture>,
    /// For each of them that is no look, its commit.
    pub commits: Vec<Commit>,
}

/// Takes the script's commands in order: for each it waits until the command's moment, captures, and commits what the command makes of the
/// state that it is shown, with the phases of its quantum; a look commits nothing. Then it asks the network's loop to end.
/// Where memory for a capture is wanting it takes no further command, and answers false.
///
/// Waits: in the pace, for the desk, by the way, and for room in the queue. Memory: two notes for each capture.
pub fn script_loop<C: StateCell<11>, N: LinkName, T: Pace, R: Wait>(
    rt: &R,
    alloc: Global,
    link: &Link<C, N>,
    way: &C::Way,
    pass: &mut AppPass<C, N>,
    pace: &mut T,
    script: &LiveScript,
    report: &mut ScriptReport,
) -> bool
    requires commands { All (λ command. IsCommand (app_command command)) script.now.apps.items }
    requires sole { (pass.old.sole ≡ true) × (pass.old.made ≡ 0) × (pass.old.own ≡ None) × (pass.old.pushed ≡ []) }
    requires empty { (report.old.captures.items ≡ []) × (report.old.commits.items ≡ []) }
    requires room { (length script.now.apps.items ≤ vec_capacity report.old.captures)
        × (length script.now.apps.items ≤ vec_capacity report.old.commits) }
    ensures run { IsScriptRun (T.late pace.old) script.now.apps.items pass.new
        report.new.captures.items report.new.commits.items result }
{
    let all = take_commands(rt, alloc, link, way, pass, pace, &script.apps, report);
    ask_to_end(rt, link);
    all
}

// Takes the commands in order, and answers whether it took all. Waits and memory: as in `script_loop`.
fn take_commands<C: StateCell<11>, N: LinkName, T: Pace, R: Wait>(
    rt: &R,
    alloc: Global,
    link: &Link<C, N>,
    way: &C::Way,
    pass: &mut AppPass<C, N>,
    pace: &mut T,
    commands: &[AppCommand],
    report: &mut ScriptReport,
) -> bool
    requires commands { All (λ command. IsCommand (app_command command)) commands.now }
    requires sole { (pass.old.sole ≡ true) × (pass.old.made ≡ 0) × (pass.old.own ≡ None) × (pass.old.pushed ≡ []) }
    requires empty { (report.old.captures.items ≡ []) × (report.old.commits.items ≡ []) }
    requires room { (length commands.now ≤ vec_capacity report.old.captures)
        × (length commands.now ≤ vec_capacity report.old.commits) }
    ensures run { IsScriptRun (T.late pace.old) commands.now pass.new
        report.new.captures.items report.new.commits.items result }
{
    for command in commands {
        if !take_command(rt, alloc, link, way, pass, pace, command, report) {
            return false;
        }
    }
    true
}

// Takes a command, unless memory for its capture is wanting. Waits and memory: as in `script_loop`.
fn take_command<C: StateCell<11>, N: LinkName, T: Pace, R: Wait>(
    rt: &R,
    alloc: Global,
    link: &Link<C, N>,
    way: &C::Way,
    pass: &mut AppPass<C, N>,
    pace: &mut T,
    command: &AppCommand,
    report: &mut ScriptReport,
) -> bool
    requires command { IsCommand (app_command command.now) }
    requires room { (vec_len report.old.captures < vec_capacity report.old.captures)
        × (vec_len report.old.commits < vec_capacity report.old.commits) }
    ensures taken { (commands : List AnyCommand) (count : ℕ) → IsCommandAt commands count command.now
        → IsTaking (T.late pace.old) commands count pass.old report.old.captures.items report.old.commits.items
        → IsTaking (T.late pace.old) commands (if result then count + 1 else count) pass.new
        report.new.captures.items report.new.commits.items }
    ensures late { T.late pace.new ≡ T.late pace.old }
    ensures captures_fit { (vec_capacity report.new.captures ≡ vec_capacity report.old.captures)
        × (vec_len report.new.captures ≤ vec_len report.old.captures + 1) }
    ensures commits_fit { (vec_capacity report.new.commits ≡ vec_capacity report.old.commits)
        × (vec_len report.new.commits ≤ vec_len report.old.commits + 1) }
{
    let at = pace.until(command.at);
    let Ok(capture) = link.capture(rt, alloc, way, pass) else {
        return false;
    };
    report.captures.push_reserved(capture);
    if looks(command.act) {
        return true;
    }
    let commit = commit_of(command.act, at, &capture);
    hand_over(rt, link, pass, commit);
    report.commits.push_reserved(commit);
    true
}

// Whether an act is a look.
fn looks(act: Act) -> bool
    ensures { result ≡ is_look act }
{
    matches!(act, Act::Look)
}
