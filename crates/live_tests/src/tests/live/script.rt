//! Runs of the script's loop, over a link and a pace in memory.

mod rows;
mod run;

use super::scripts::script_of;
use rows::{ROWS, Row};
use run::told_by;
use std::alloc::Global;
use std::process::Abort;
use std::sync::Wait;

// rule: IsKept, commands_commits, capture_of, edited_of, IsScriptPart
#[test]
fn a_script_is_taken_in_order(rt: HostRuntime) {
    for row in ROWS {
        expect_row(&rt, rt.alloc(), row);
    }
}

fn expect_row<R: Wait + Abort>(rt: &R, alloc: Global, row: &Row) {
    let script = script_of(alloc, row.commands).expect(rt, "a script");
    let told = told_by(rt, alloc, row, &script);
    assert_eq!(rt; told.as_slice(), row.told.as_bytes(), "{}", row.commands);
}
