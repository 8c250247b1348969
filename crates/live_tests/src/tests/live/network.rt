//! Runs of the loop that owns the network, over a port and a link in memory.
//!
//! All commits and the quit stand in the queue before a run, and each turn pops one item: so a run has a turn for each commit before the
//! quit, and one for the quit.

mod datagrams;
mod given;
mod link;
mod plan;
mod rows;
mod told;
mod watch;

use given::Given;
use link::told_over;
use plan::plan_of;
use std::alloc::Global;
use std::process::Abort;
use std::sync::Wait;
use told::Told;

// rule: owes_tick
#[test]
fn the_first_turn_takes_a_tick(rt: HostRuntime) {
    expect_runs(&rt, rt.alloc(), rows::OPENINGS);
}

// rule: AreHeard
#[test]
fn a_tick_is_taken_where_it_is_due(rt: HostRuntime) {
    expect_runs(&rt, rt.alloc(), rows::WAITS);
}

// rule: AreHeard
#[test]
fn a_datagram_carries_the_clock(rt: HostRuntime) {
    expect_runs(&rt, rt.alloc(), rows::DATAGRAMS);
}

// rule: EndsRow
#[test]
fn each_gate_answers_its_own(rt: HostRuntime) {
    expect_runs(&rt, rt.alloc(), rows::GATES);
}

#[test]
fn what_is_answered_goes_out_at_once(rt: HostRuntime) {
    expect_runs(&rt, rt.alloc(), rows::ANSWERS);
}

// rule: HasTurned
#[test]
fn a_commit_stands_first_in_its_turn(rt: HostRuntime) {
    expect_runs(&rt, rt.alloc(), rows::COMMITS);
}

// rule: HasCause
#[test]
fn after_a_failed_receive_the_port_is_not_called(rt: HostRuntime) {
    expect_runs(&rt, rt.alloc(), rows::RECEIVES);
}

// rule: HasCause, ArePostedBefore
#[test]
fn after_a_failed_send_the_port_is_not_called(rt: HostRuntime) {
    expect_runs(&rt, rt.alloc(), rows::SENDS);
}

#[test]
fn a_full_journal_takes_and_asks_nothing(rt: HostRuntime) {
    expect_runs(&rt, rt.alloc(), rows::JOURNALS);
}

// rule: HasCause
#[test]
fn without_gates_the_port_is_not_called(rt: HostRuntime) {
    expect_runs(&rt, rt.alloc(), rows::UNBOUND);
}

#[test]
fn a_receive_waits_until_a_tick_is_due_or_5_milliseconds(rt: HostRuntime) {
    expect_all(&rt, rt.alloc(), rows::UNTILS, true);
}

fn expect_runs<R: Wait + Abort>(rt: &R, alloc: Global, rows: &str) {
    expect_all(rt, alloc, rows, false);
}

// The run of each row: what is told, or until when each receive was to wait. A table has 99 rows at most.
fn expect_all<R: Wait + Abort>(rt: &R, alloc: Global, rows: &str, untils: bool) {
    let mut left = rows;
    for _ in 0..99 {
        if let Some((row, rest)) = left.split_once('\n') {
            expect_row(rt, alloc, row, untils);
            left = rest;
        }
    }
    assert_eq!(rt; left, "");
}

fn expect_row<R: Wait + Abort>(rt: &R, alloc: Global, row: &str, untils: bool) {
    let Some((words, want)) = row.split_once(" = ") else {
        panic!(rt; "no row: {row}");
    };
    let plan = plan_of(words);
    let given = Given {
        gates: &plan.gates,
        limits: &plan.limits,
        coming: &plan.coming,
        queue: &plan.queue,
    };
    let told = told_over(rt, alloc, &given);
    expect_told(rt, &told, want, row, untils);
}

fn expect_told(rt: &impl Abort, told: &Told, want: &str, row: &str, untils: bool) {
    let text = if untils { &told.untils } else { &told.text };
    assert_eq!(rt; text.as_slice(), want.as_bytes(), "{row}");
}
