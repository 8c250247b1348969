//! What a run on the network came to, written.

ghost use Rattle.std.specs.Prelude.{◌≡◌, ◌≤◌, [], length, OnOk, OnErr};
ghost use Rattle.lk_outside.specs.Faults.{Rose};
ghost use Rattle.lk_outside.specs.Sink.{Appends};
ghost use Rattle.lk_outside.specs.Transfer.{AppendsPrefix};
ghost use Rattle.link_live.specs.Report.{report_value};
ghost use Rattle.link_live_command.specs.ReportText.{live_text_of};

use crate::report_text::hand_report;
use link_commands::{Outlet, SinkFailed};
use link_live::Report;
use lk_outside::Sink;

/// Writes what is told of a run, and where a record is asked for its replay script, through an outlet that keeps nothing yet.
///
/// Waits: in the sink's calls alone. Memory: none.
pub fn write_report<K: Sink>(
    report: &Report,
    recorded: bool,
    outlet: &mut Outlet,
    out: &mut K,
) -> Result<(), SinkFailed>
    requires few { length report.now.plays.items ≤ 524_288 }
    requires empty { outlet.old.kept.items ≡ [] }
    ensures whole { OnOk result (Appends (K.seen out.old).told (live_text_of (report_value report.entry.now) recorded) (K.seen out.new).told) }
    ensures part { OnErr result (AppendsPrefix (K.seen out.old).told (live_text_of (report_value report.entry.now) recorded) (K.seen out.new).told) }
    ensures quiet { OnOk result ((K.seen out.new).faults ≡ (K.seen out.old).faults) }
    ensures cause { OnErr result (Rose (K.seen out.old).faults (K.seen out.new).faults) }
{
    hand_report(report, recorded, outlet, out)?;
    outlet.flush(out)
}
