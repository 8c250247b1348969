//! The command `live`: a live run of a script over a port, an audio device and a pace.

ghost use Rattle.std.specs.Prelude.{◌≡◌, ◌≤◌, ◌<◌, ◌^◌, ℕ, List, [], length, map};
ghost use Rattle.lk_base.specs.Ranges.{IsQuantum};
ghost use Rattle.link_node.specs.Config.{config_value, gate_value};
ghost use Rattle.link_script.specs.LiveScript.{IsLiveText};
ghost use Rattle.link_script.specs.ReplayScript.{IsVisibleId};
ghost use Rattle.link_live_command.specs.LiveEnds.{EndsLive, EndsRun, IfNotBegun};
ghost use Rattle.link_live_command.specs.LiveSetup.{config_from, setup_from, status_from};
ghost use Rattle.link_live_command.specs.Outside.{outside_of};
ghost use Rattle.link_live.specs.Report.{report_value};

use crate::input::read_script;
use crate::sayable::are_sayable;
use crate::summary::write_report;
use link_commands::{Outlet, Status};
use link_live::{LiveEnd, LiveRun, Report, Room, live_run, scripts_have_commands};
use link_node::Config;
use link_script::LiveScript;
use link_text::written_scripts_are_read;
use link_words::{LiveOptions, WordsFault, live_options};
use lk_base::IdSource;
use lk_outside::{Audio, Pace, Port, Sink, Source};
use std::alloc::Global;
use std::mem;
use std::sync::Wait;
use std::thread::Threads;

/// Runs the live script on `input` over the port, the device and the pace: reads and checks it whole, plays until its commands are taken
/// and the device's blocks are played, and then writes to `out` how much there was, and where the words ask for it the run's replay
/// script. The node's id is the first that the seed gives. What the run came to is told in the report.
///
/// Waits: for the threads of the run, and in the objects' calls. Memory: before the run the text, the script and all room that a run needs;
/// in it two notes for each capture of the script's application.
pub fn live_main<
    S: Source,
    P: Port + Send,
    A: Audio + Send,
    T: Pace + Send,
    K: Sink,
    R: Threads + Wait + Sync,
>(
    rt: &R,
    alloc: Global,
    words: &[String],
    seed: u64,
    input: &mut S,
    port: &mut P,
    audio: &mut A,
    pace: &mut T,
    out: &mut K,
    report: &mut Report,
) -> Status
    ensures ends { EndsLive words.now seed (S.seen input.old) (S.seen input.new)
        (outside_of (P.seen port.old) (A.seen audio.old) (T.late pace.old) (K.seen out.old) (report_value report.old))
        (outside_of (P.seen port.new) (A.seen audio.new) (T.late pace.new) (K.seen out.new) (report_value report.new))
        result }

    // No object is called, or the input alone.
    ensures untouched { result ≡ Status.Words → input.new ≡ input.old }
    ensures not_begun { IfNotBegun result ((port.new ≡ port.old) × (audio.new ≡ audio.old) × (pace.new ≡ pace.old) × (out.new ≡ out.old)) }

    // Memory was wanting before a run was begun: one that was begun tells its opening state. The pace may have been asked for a moment.
    ensures unbegun { result ≡ Status.Memory → report.new.published.items ≡ []
        → (port.new ≡ port.old) × (audio.new ≡ audio.old) × (out.new ≡ out.old) }
{
    report.clear();
    let options = match live_options(alloc, words) {
        Ok(options) => options,
        Err(WordsFault::NotTaken) => return Status::Words,
        Err(WordsFault::Memory) => return Status::Memory,
    };
    match read_script(alloc, input) {
        Ok(script) => run_script(
            rt, alloc, seed, &options, script, port, audio, pace, out, report,
        ),
        Err(status) => status,
    }
}

// Runs a script that was read, and writes what the run came to.
fn run_script<P: Port + Send, A: Audio + Send, T: Pace + Send, K: Sink, R: Threads + Wait + Sync>(
    rt: &R,
    alloc: Global,
    seed: u64,
    options: &LiveOptions,
    mut script: LiveScript,
    port: &mut P,
    audio: &mut A,
    pace: &mut T,
    out: &mut K,
    report: &mut Report,
) -> Status
    requires options { (1 ≤ options.now.events) × (options.now.events ≤ 524_288) × (options.now.blocks ≤ 524_288) × IsQuantum options.now.quantum }
    requires script { (bytes : List ℕ) × (length bytes ≤ 16_777_216) × IsLiveText bytes script.mpb script.sync
        (map gate_value script.gates.items) script.apps.items script.blocks.items }
    ensures ends { EndsRun (setup_from seed options.now script) options.now.«record»
        (outside_of (P.seen port.old) (A.seen audio.old) (T.late pace.old) (K.seen out.old) (report_value report.old))
        (outside_of (P.seen port.new) (A.seen audio.new) (T.late pace.new) (K.seen out.new) (report_value report.new))
        result }
    ensures unbegun { result ≡ Status.Memory → report.new.published.items ≡ []
        → (port.new ≡ port.old) × (audio.new ≡ audio.old) × (out.new ≡ out.old) }
{
    let now = pace.until(0);
    let config = config_of(seed, *options, &mut script);
    // A law, for the proof: there can be room for what the script says.
    scripts_have_commands();
    let Ok(mut outlet) = Outlet::new(alloc) else {
        return Status::Memory;
    };
    let Ok(room) = Room::new(alloc, &script, options.blocks) else {
        return Status::Memory;
    };
    let Ok(run) = live_run(
        rt,
        alloc,
        &config,
        now,
        options.events,
        &script,
        options.blocks,
        room,
        port,
        audio,
        pace,
    ) else {
        return Status::Memory;
    };
    // Facts, for the proof: the events can be said, and what is written of them is read again.
    are_sayable(&run.events);
    written_scripts_are_read();
    let end = run.end;
    report.keep(config, now, run);
    let written = write_report(report, options.record, &mut outlet, out);
    status_of(end, written.is_ok())
}

// The config of the node that a script opens, whose gates are taken out of the script. Memory: none.
fn config_of(seed: u64, options: LiveOptions, script: &mut LiveScript) -> Config
    ensures config { config_value result ≡ config_from seed options script.old }
    ensures visible { IsVisibleId result.id }
    // Of what is passed by value its type says the range.
    ensures group { result.group < 2 ^ 16 }
    ensures apps { script.new.apps ≡ script.old.apps }
    ensures blocks { script.new.blocks ≡ script.old.blocks }
{
    Config {
        id: IdSource::new(seed, 1).draw(),
        seed,
        mpb: script.mpb,
        sync: script.sync,
        group: options.group,
        quantum: options.quantum,
        gates: mem::take(&mut script.gates),
    }
}

// The status of a run that ended so, and whose report was written or not.
fn status_of(end: LiveEnd, written: bool) -> Status
    ensures { result ≡ status_from end written }
{
    match end {
        LiveEnd::Memory => Status::Memory,
        LiveEnd::Port => Status::Port,
        LiveEnd::Audio => Status::Audio,
        LiveEnd::Events => Status::Events,
        LiveEnd::Well if written => Status::Done,
        LiveEnd::Well => Status::Sink,
    }
}
