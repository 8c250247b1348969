//! The text of a live run's report, handed over.

ghost use Rattle.std.specs.Prelude.{◌≡◌, ◌≤◌, ◌+◌, ◌++◌, ◌∷◌, ℤ, length, map, OnOk, OnErr};
ghost use Rattle.std.specs.Fmt.{decimal};
ghost use Rattle.std.specs.List.{flat_map};
ghost use Rattle.arrayvec.specs.ArrayVec.{array_vec_len};
ghost use Rattle.lk_outside.specs.Faults.{Rose};
ghost use Rattle.link_node.specs.Config.{config_value};
ghost use Rattle.link_node.specs.Event.{event_value};
ghost use Rattle.link_script.specs.ReplayScript.{ended, event_line, head_lines, written_script_of};
ghost use Rattle.link_commands.specs.Outlet.{HandsOver, HandsPart};
ghost use Rattle.link_live.specs.Report.{report_value};
ghost use Rattle.link_live_command.specs.ReportText.{last_state_text_of, live_line_of, live_text_of};

use client_state::State;
use link_commands::{Outlet, SinkFailed, hand_state};
use link_live::Report;
use link_node::{Config, Event};
use link_text::{LineBuf, put, put_decimal, write_event, write_head};
use lk_base::Clicks;
use lk_outside::Sink;

/// Hands over how much there was and the state published last, and where a record is asked for the replay script of the run.
///
/// Waits: in the sink's calls alone. Memory: none.
pub fn hand_report<K: Sink>(
    report: &Report,
    recorded: bool,
    outlet: &mut Outlet,
    out: &mut K,
) -> Result<(), SinkFailed>
    requires few { length report.now.plays.items ≤ 524_288 }
    ensures kept { OnOk result (HandsOver (live_text_of (report_value report.entry.now) recorded)
        (K.seen out.old).told outlet.old.kept.items (K.seen out.new).told outlet.new.kept.items) }
    ensures part { OnErr result (HandsPart (live_text_of (report_value report.entry.now) recorded)
        (K.seen out.old).told outlet.old.kept.items (K.seen out.new).told) }
    ensures quiet { OnOk result ((K.seen out.new).faults ≡ (K.seen out.old).faults) }
    ensures cause { OnErr result (Rose (K.seen out.old).faults (K.seen out.new).faults) }
{
    let mut line = LineBuf::new();
    hand_counts(report, &mut line, outlet, out)?;
    hand_last_state(&report.published, &mut line, outlet, out)?;
    if !recorded {
        return Ok(());
    }
    hand_record(report, &mut line, outlet, out)
}

// Hands over the line of how much there was.
fn hand_counts<K: Sink>(
    report: &Report,
    line: &mut LineBuf,
    outlet: &mut Outlet,
    out: &mut K,
) -> Result<(), SinkFailed>
    requires few { length report.now.plays.items ≤ 524_288 }
    ensures kept { OnOk result (HandsOver (live_line_of (report_value report.entry.now))
        (K.seen out.old).told outlet.old.kept.items (K.seen out.new).told outlet.new.kept.items) }
    ensures part { OnErr result (HandsPart (live_line_of (report_value report.entry.now))
        (K.seen out.old).told outlet.old.kept.items (K.seen out.new).told) }
    ensures quiet { OnOk result ((K.seen out.new).faults ≡ (K.seen out.old).faults) }
    ensures cause { OnErr result (Rose (K.seen out.old).faults (K.seen out.new).faults) }
{
    write_counts(line, report);
    outlet.put_line(out, line.as_slice())
}

// Puts the line of how much there was in place of what the buffer held.
#[tactic(auto, unfolding(crate::specs::ReportText::live_line_of))]
fn write_counts(line: &mut LineBuf, report: &Report)
    requires few { length report.now.plays.items ≤ 524_288 }
    ensures { line.new.items ≡ live_line_of (report_value report.entry.now) }
{
    line.clear();
    put(line, b"# live");
    put_amount(line, report.events.len() as u64);
    put_amount(line, report.published.len() as u64);
    put_amount(line, report.reads.len() as u64);
    put_amount(line, report.captures.len() as u64);
    put_amount(line, report.app_commits.len() as u64);
    put_amount(line, report.audio_commits.len() as u64);
    put_amount(line, report.plays.len() as u64);
    put_amount(line, clicks_in(&report.plays));
    put(line, b"\n");
}

// Appends a space and a number.
fn put_amount(line: &mut LineBuf, amount: u64)
    requires { array_vec_len line.old ≤ 1000 }
    ensures items { line.new.items ≡ line.old.items ++ 32 ∷ decimal amount }
    ensures len { array_vec_len line.new ≤ array_vec_len line.old + 21 }
{
    put(line, b" ");
    put_decimal(line, amount);
}

// How many clicks there were in the blocks that were played.
fn clicks_in(plays: &[Clicks]) -> u64
    requires few { length plays.now ≤ 524_288 }
    ensures { result ≡ length (flat_map (λ clicks. clicks) (map (λ clicks. clicks.items) plays.now)) }
{
    let mut clicks = 0;
    for play in plays {
        clicks += play.len() as u64;
    }
    clicks
}

// Hands over the line of the state published last behind a `#`, where there is one.
fn hand_last_state<K: Sink>(
    published: &[State],
    line: &mut LineBuf,
    outlet: &mut Outlet,
    out: &mut K,
) -> Result<(), SinkFailed>
    ensures kept { OnOk result (HandsOver (last_state_text_of 0 published.now)
        (K.seen out.old).told outlet.old.kept.items (K.seen out.new).told outlet.new.kept.items) }
    ensures part { OnErr result (HandsPart (last_state_text_of 0 published.now)
        (K.seen out.old).told outlet.old.kept.items (K.seen out.new).told) }
    ensures quiet { OnOk result ((K.seen out.new).faults ≡ (K.seen out.old).faults) }
    ensures cause { OnErr result (Rose (K.seen out.old).faults (K.seen out.new).faults) }
{
    let Some(state) = published.last() else {
        return Ok(());
    };
    outlet.put_line(out, b"# ")?;
    hand_state(2, published.len() as u64 - 1, state, line, outlet, out)
}

// Hands over the replay script of the node and its events.
fn hand_record<K: Sink>(
    report: &Report,
    line: &mut LineBuf,
    outlet: &mut Outlet,
    out: &mut K,
) -> Result<(), SinkFailed>
    ensures kept { OnOk result (HandsOver (written_script_of (config_value report.entry.now.config) report.entry.now.now
        (map event_value report.entry.now.events.items))
        (K.seen out.old).told outlet.old.kept.items (K.seen out.new).told outlet.new.kept.items) }
    ensures part { OnErr result (HandsPart (written_script_of (config_value report.entry.now.config) report.entry.now.now
        (map event_value report.entry.now.events.items))
        (K.seen out.old).told outlet.old.kept.items (K.seen out.new).told) }
    ensures quiet { OnOk result ((K.seen out.new).faults ≡ (K.seen out.old).faults) }
    ensures cause { OnErr result (Rose (K.seen out.old).faults (K.seen out.new).faults) }
{
    hand_head(&report.config, report.now, line, outlet, out)?;
    hand_events(&report.events, line, outlet, out)
}

// Hands over the lines of a script's head.
fn hand_head<K: Sink>(
    config: &Config,
    now: i64,
    line: &mut LineBuf,
    outlet: &mut Outlet,
    out: &mut K,
) -> Result<(), SinkFailed>
    ensures kept { OnOk result (HandsOver (flat_map ended (head_lines 2 (config_value config.now) now))
        (K.seen out.old).told outlet.old.kept.items (K.seen out.new).told outlet.new.kept.items) }
    ensures part { OnErr result (HandsPart (flat_map ended (head_lines 2 (config_value config.now) now))
        (K.seen out.old).told outlet.old.kept.items (K.seen out.new).told) }
    ensures quiet { OnOk result ((K.seen out.new).faults ≡ (K.seen out.old).faults) }
    ensures cause { OnErr result (Rose (K.seen out.old).faults (K.seen out.new).faults) }
{
    for k in 0..head_length(config) {
        let _there = write_head(line, config, now, k);
        outlet.put_line(out, line.as_slice())?;
    }
    Ok(())
}

// How many lines the head of a script of version 2 has: four, and for each gate its own and those of its destinations.
fn head_length(config: &Config) -> u32
    ensures { (now : ℤ) → result ≡ length (head_lines 2 (config_value config.now) now) }
{
    let mut lines = 4;
    for gate in config.gates.as_slice() {
        lines += 1 + gate.peers.len() as u32;
    }
    lines
}

// Hands over the lines of events.
fn hand_events<K: Sink>(
    events: &[Event],
    line: &mut LineBuf,
    outlet: &mut Outlet,
    out: &mut K,
) -> Result<(), SinkFailed>
    ensures kept { OnOk result (HandsOver (flat_map (λ e. ended (event_line e)) (map event_value events.now))
        (K.seen out.old).told outlet.old.kept.items (K.seen out.new).told outlet.new.kept.items) }
    ensures part { OnErr result (HandsPart (flat_map (λ e. ended (event_line e)) (map event_value events.now))
        (K.seen out.old).told outlet.old.kept.items (K.seen out.new).told) }
    ensures quiet { OnOk result ((K.seen out.new).faults ≡ (K.seen out.old).faults) }
    ensures cause { OnErr result (Rose (K.seen out.old).faults (K.seen out.new).faults) }
{
    for event in events {
        hand_event(event, line, outlet, out)?;
    }
    Ok(())
}

// Hands over the line of an event.
fn hand_event<K: Sink>(
    event: &Event,
    line: &mut LineBuf,
    outlet: &mut Outlet,
    out: &mut K,
) -> Result<(), SinkFailed>
    ensures kept { OnOk result (HandsOver (ended (event_line (event_value event.now)))
        (K.seen out.old).told outlet.old.kept.items (K.seen out.new).told outlet.new.kept.items) }
    ensures part { OnErr result (HandsPart (ended (event_line (event_value event.now)))
        (K.seen out.old).told outlet.old.kept.items (K.seen out.new).told) }
    ensures quiet { OnOk result ((K.seen out.new).faults ≡ (K.seen out.old).faults) }
    ensures cause { OnErr result (Rose (K.seen out.old).faults (K.seen out.new).faults) }
{
    write_event(line, event);
    outlet.put_line(out, line.as_slice())
}
