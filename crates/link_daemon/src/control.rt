//! The command `control`: a run on the network under a client that is served over a talk.

ghost use Rattle.std.specs.Prelude.{◌≡◌, ◌≤◌, [], map, IfOk};
ghost use Rattle.lk_base.specs.Ranges.{IsQuantum};
ghost use Rattle.link_node.specs.Config.{config_value, gate_value};
ghost use Rattle.link_script.specs.LiveScript.{IsLiveHead};
ghost use Rattle.link_live.specs.Report.{report_value};
ghost use Rattle.link_control.specs.ControlRun.{IsReady, told_of};
ghost use Rattle.link_daemon.specs.ControlEnds.{EndsControl, EndsControlled, control_seen_of};
ghost use Rattle.link_daemon.specs.ControlSetup.{control_setup_from, control_status_from, controlled_config_from};
ghost use Rattle.link_live_command.specs.LiveEnds.{IfNotBegun};

use link_commands::{Outlet, Status};
use link_control::{ControlEnd, ControlRoom, ControlRun, SessionLog, control_run};
use link_live::Report;
use link_live_command::{read_head, write_report};
use link_node::Config;
use link_text::LiveHead;
use link_words::{ControlOptions, WordsFault, control_options};
use lk_base::IdSource;
use lk_outside::{Pace, Port, Sink, Source, Talk};
use std::alloc::{AllocError, Global};
use std::sync::Wait;
use std::thread::Threads;

/// Runs a node on the network under a client: reads the head of a live script on `input`, listens at the endpoint of the words, and
/// answers the client's lines until it ends, while the node plays with its peers. Then it writes to `out` how much there was. The node's
/// id is the first that the seed gives. What the run came to is told in the report, and what each line did in the log.
///
/// Waits: for the threads of the run, and in the objects' calls. Memory: before the run the text, the head, the log and all room that a run
/// needs; in it two notes for each line.
pub fn control_main<
    S: Source,
    P: Port + Send,
    L: Talk + Send,
    T: Pace + Send,
    K: Sink,
    R: Threads + Wait + Sync,
>(
    rt: &R,
    alloc: Global,
    words: &[String],
    seed: u64,
    input: &mut S,
    port: &mut P,
    talk: &mut L,
    pace: &mut T,
    out: &mut K,
    report: &mut Report,
    log: &mut SessionLog,
) -> Status
    ensures ends { EndsControl words.now seed (S.seen input.old) (S.seen input.new)
        (control_seen_of (P.seen port.old) (L.seen talk.old) (T.late pace.old) (K.seen out.old) (report_value report.old) log.old.lines.items)
        (control_seen_of (P.seen port.new) (L.seen talk.new) (T.late pace.new) (K.seen out.new) (report_value report.new) log.new.lines.items)
        result }

    // No object is called, or the input alone.
    ensures untouched { result ≡ Status.Words → input.new ≡ input.old }
    ensures not_begun { IfNotBegun result ((port.new ≡ port.old) × (talk.new ≡ talk.old) × (pace.new ≡ pace.old) × (out.new ≡ out.old)) }

    // Memory was wanting before a run was begun: one that was begun tells its opening state. The pace may have been asked for a moment.
    ensures unbegun { result ≡ Status.Memory → report.new.published.items ≡ []
        → (port.new ≡ port.old) × (talk.new ≡ talk.old) × (out.new ≡ out.old) }
{
    report.clear();
    log.clear();
    let options = match control_options(alloc, words) {
        Ok(options) => options,
        Err(WordsFault::NotTaken) => return Status::Words,
        Err(WordsFault::Memory) => return Status::Memory,
    };
    match read_head(alloc, input) {
        Ok(head) => run_head(
            rt, alloc, seed, &options, head, port, talk, pace, out, report, log,
        ),
        Err(status) => status,
    }
}

// Runs a node, which a head opens, under its client, and writes what the run came to.
fn run_head<P: Port + Send, L: Talk + Send, T: Pace + Send, K: Sink, R: Threads + Wait + Sync>(
    rt: &R,
    alloc: Global,
    seed: u64,
    options: &ControlOptions,
    head: LiveHead,
    port: &mut P,
    talk: &mut L,
    pace: &mut T,
    out: &mut K,
    report: &mut Report,
    log: &mut SessionLog,
) -> Status
    requires options { (1 ≤ options.now.events) × (options.now.events ≤ 524_288) × IsQuantum options.now.quantum }
    requires head { IsLiveHead head.mpb (map gate_value head.gates.items) }
    requires log { log.old.lines.items ≡ [] }
    ensures ends { EndsControlled (control_setup_from seed options.now head)
        (control_seen_of (P.seen port.old) (L.seen talk.old) (T.late pace.old) (K.seen out.old) (report_value report.old) log.old.lines.items)
        (control_seen_of (P.seen port.new) (L.seen talk.new) (T.late pace.new) (K.seen out.new) (report_value report.new) log.new.lines.items)
        result }
    ensures unbegun { result ≡ Status.Memory → report.new.published.items ≡ []
        → (port.new ≡ port.old) × (talk.new ≡ talk.old) × (out.new ≡ out.old) }
{
    let now = pace.until(0);
    let config = config_of(seed, *options, head);
    let Ok(mut outlet) = Outlet::new(alloc) else {
        return Status::Memory;
    };
    let Ok(room) = make_room(alloc, log) else {
        return Status::Memory;
    };
    let Ok(run) = control_run(
        rt,
        alloc,
        &config,
        now,
        options.events,
        options.at,
        room,
        port,
        talk,
        pace,
        log,
    ) else {
        return Status::Memory;
    };
    let end = run.end;
    keep_run(report, config, now, run);
    let written = write_report(report, false, &mut outlet, out);
    status_of(end, written.is_ok())
}

// The config of the node that a head opens. Memory: none.
fn config_of(seed: u64, options: ControlOptions, head: LiveHead) -> Config
    ensures { config_value result ≡ controlled_config_from seed options head }
{
    Config {
        id: IdSource::new(seed, 1).draw(),
        seed,
        mpb: head.mpb,
        sync: head.sync,
        group: options.group,
        quantum: options.quantum,
        gates: head.gates,
    }
}

// Makes the room that a run needs, that of its log among it, which is empty and stays so. Memory: all of it.
fn make_room(alloc: Global, log: &mut SessionLog) -> Result<ControlRoom, AllocError>
    requires { log.old.lines.items ≡ [] }
    ensures ready { IfOk result (λ room. IsReady room log.new) }
    ensures stays { log.new.lines.items ≡ log.old.lines.items }
{
    log.reserve()?;
    ControlRoom::new(alloc)
}

// Tells of this run of a node that was opened so, in place of what was told before: there was no audio thread. Memory: none.
fn keep_run(report: &mut Report, config: Config, now: i64, run: ControlRun)
    ensures { report_value report.new ≡ told_of (config_value config) now run }
{
    let ControlRun {
        end: _,
        events,
        published,
        captures,
        commits,
    } = run;
    report.config = config;
    report.now = now;
    report.events = events;
    report.published = published;
    report.reads.clear();
    report.captures = captures;
    report.app_commits = commits;
    report.audio_commits.clear();
    report.plays.clear();
}

// The status of a run that ended so, and whose summary was written or not.
fn status_of(end: ControlEnd, written: bool) -> Status
    ensures { result ≡ control_status_from end written }
{
    match end {
        ControlEnd::Memory => Status::Memory,
        ControlEnd::Port => Status::Port,
        ControlEnd::Talk => Status::Talk,
        ControlEnd::Events => Status::Events,
        ControlEnd::Lines => Status::Lines,
        ControlEnd::Well if written => Status::Done,
        ControlEnd::Well => Status::Sink,
    }
}
