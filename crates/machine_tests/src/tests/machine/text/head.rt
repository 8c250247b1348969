//! Heads of live scripts, behind which there is no command: what is read.

ghost use Rattle.std.specs.Prelude.{◌≤◌, ◌-◌, ◌^◌, length};

use crate::tests::machine::{expect, fail};
use link_text::{LiveHead, read_live_head};
use std::process::Abort;

// Fails where a text is read as another head than this, whose gates are told by their port and by how many destinations there are.
fn expect_head(rt: &impl Abort, text: &[u8], mpb: i64, sync: bool, gates: &[(u16, usize)])
    requires { length text.now ≤ 2 ^ 32 - 2 }
{
    match read_live_head(text) {
        Ok(head) => expect_said(rt, &head, mpb, sync, gates),
        Err(_fault) => fail(rt, 0),
    }
}

fn expect_said(rt: &impl Abort, head: &LiveHead, mpb: i64, sync: bool, gates: &[(u16, usize)]) {
    let said = (head.mpb, head.sync, head.gates.len());
    expect(rt, 0, &said, &(mpb, sync, gates.len()));
    for (row, gate) in head.gates.iter().enumerate() {
        let found = (gate.local.port, gate.peers.len());
        expect(rt, row, &Some(&found), &gates.get(row));
    }
}

// rule: is_passed, IsHeadText
#[test]
fn a_head_is_read_line_by_line(rt: HostRuntime) {
    expect_head(
        &rt,
        b"link 1\nsetup 60060 1\ngate 1.2.3.4:5",
        60_060,
        true,
        &[(5, 0)],
    );
    expect_head(
        &rt,
        b"#\nlink 1\n\nsetup 480000 0\ngate 10.0.0.1:20809\nto 1.2.3.4:5\n\nto 1.2.3.4:6\n\
#at 0 look\ngate 10.0.0.1:20810\ngate 10.0.0.1:20811\nto 1.2.3.4:7\ngate 10.0.0.1:20812\n\n#\n\n",
        480_000,
        false,
        &[(20_809, 2), (20_810, 0), (20_811, 1), (20_812, 0)],
    );
}
