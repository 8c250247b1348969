//! The top call: the command that the first word names.

ghost use Rattle.std.specs.Prelude.{◌≡◌, []};
ghost use Rattle.link_daemon.specs.Ends.{Ends};
ghost use Rattle.link_live_command.specs.LiveEnds.{IfNotBegun};
ghost use Rattle.link_words.specs.ControlWords.{BeginsControl};
ghost use Rattle.link_words.specs.LiveWords.{BeginsLive};
ghost use Rattle.link_words.specs.LoadWords.{BeginsLoad};
ghost use Rattle.link_daemon.specs.AllSeen.{all_seen};
ghost use Rattle.link_live.specs.Report.{report_value};
ghost use Rattle.link_commands.specs.Statuses.{IfNothingWritten};

use crate::control::control_main;
use link_commands::{Status, decode_main, filter_main, load_main, midi_main, replay_main};
use link_control::SessionLog;
use link_live::Report;
use link_live_command::live_main;
use link_words::{CommandName, command_named};
use lk_outside::{Audio, Pace, Port, Sink, Source, Talk};
use std::alloc::Global;
use std::sync::Wait;
use std::thread::Threads;

/// Runs the command that the first word names: `replay`, `decode`, `filter`, `midi`, `load`, `live` or `control`. Any other word, and none,
/// is a faulty command line. The seed, the port, the pace and the report are those of `live` and `control`, the device that of `live`, the
/// talk and the log those of `control`.
///
/// Waits: in the objects' calls, and for the threads of a run on the network. Memory: that of the command.
pub fn link_main<
    S: Source,
    P: Port + Send,
    A: Audio + Send,
    L: Talk + Send,
    T: Pace + Send,
    K: Sink,
    R: Threads + Wait + Sync,
>(
    rt: &R,
    alloc: Global,
    words: &[String],
    seed: u64,
    input: &mut S,
    port: &mut P,
    audio: &mut A,
    talk: &mut L,
    pace: &mut T,
    out: &mut K,
    report: &mut Report,
    log: &mut SessionLog,
) -> Status
    ensures ends { Ends words.now seed
        (all_seen (S.seen input.old) (P.seen port.old) (A.seen audio.old) (L.seen talk.old) (T.late pace.old) (K.seen out.old)
        (report_value report.old) log.old.lines.items)
        (all_seen (S.seen input.new) (P.seen port.new) (A.seen audio.new) (L.seen talk.new) (T.late pace.new) (K.seen out.new)
        (report_value report.new) log.new.lines.items) result }

    // No object is called, or just those of the command.
    ensures untouched { result ≡ Status.Words → (input.new ≡ input.old) × (pace.new ≡ pace.old) × (out.new ≡ out.old) }
    ensures not_begun { IfNotBegun result ((port.new ≡ port.old) × (audio.new ≡ audio.old) × (talk.new ≡ talk.old)
        × (pace.new ≡ pace.old) × (out.new ≡ out.old)) }
    // Memory was wanting before a run was begun: one that was begun tells its opening state.
    ensures unbegun { result ≡ Status.Memory → report.new.published.items ≡ []
        → (port.new ≡ port.old) × (audio.new ≡ audio.old) × (talk.new ≡ talk.old) × (out.new ≡ out.old) }
    ensures unwritten { (BeginsLive words.now → ⊥) → (BeginsControl words.now → ⊥) → IfNothingWritten result (out.new ≡ out.old) }
    ensures load_reads_nothing { BeginsLoad words.now → input.new ≡ input.old }
    ensures aside { (BeginsLive words.now → ⊥) → (BeginsControl words.now → ⊥)
        → (port.new ≡ port.old) × (pace.new ≡ pace.old) × (report.new ≡ report.old) }
    ensures soundless { (BeginsLive words.now → ⊥) → audio.new ≡ audio.old }
    ensures untalked { (BeginsControl words.now → ⊥) → (talk.new ≡ talk.old) × (log.new ≡ log.old) }
{
    match command_named(words) {
        Some(CommandName::Replay) => replay_main(alloc, words, input, out),
        Some(CommandName::Decode) => decode_main(alloc, words, input, out),
        Some(CommandName::Filter) => filter_main(alloc, words, input, out),
        Some(CommandName::Midi) => midi_main(alloc, words, input, out),
        Some(CommandName::Load) => load_main(alloc, words, out),
        Some(CommandName::Live) => live_main(
            rt, alloc, words, seed, input, port, audio, pace, out, report,
        ),
        Some(CommandName::Control) => control_main(
            rt, alloc, words, seed, input, port, talk, pace, out, report, log,
        ),
        None => Status::Words,
    }
}
