//! What a client is answered, and what a run under it tells.

ghost use Rattle.std.specs.Prelude.{◌<◌};

use super::super::live::sides::{Sides, sides_over};
use super::clients::{SCRIPT, WORDS, client, run_with};
use link_daemon::Status;
use lk_outside::ListTalk;
use std::alloc::{AllocError, Global};
use std::sync::Wait;
use std::test::Fail;
use std::thread::Threads;

const SENT: &[u8] = b"status\ntempo 250000\nbeat 1000000\nnope\n";

/// At half the length of a beat there are four of them in a second.
const ANSWERS: &[u8] = b"status 500000 0 0 0 0\nok 1\nbeat 4000000\nbad\n";

/// How much there was, and the state that is published last.
const SUMMARY: &[u8] =
    b"# live 3 2 0 4 1 0 0 0\n# state 1 250000 0 0 0 0 0 1 0 0 1 0 2d6b653a343a2e60 4000000\n";

// rule: HasServed, control_app, EndsNamed, controlled_config_from, HasEndedControl
#[test]
fn a_client_is_answered_line_by_line(rt: HostRuntime) -> Result<(), Fail> {
    assert!(rt; is_answered(&rt, rt.alloc(), 4096)?);
    assert!(rt; is_answered(&rt, rt.alloc(), 1)?, "a byte a read");
    Ok(())
}

// Whether the client is answered and the run told so where its bytes come so many a read.
fn is_answered<R: Threads + Wait + Sync>(
    rt: &R,
    alloc: Global,
    most: usize,
) -> Result<bool, AllocError>
    requires { 0 < most }
{
    let mut talk = client(alloc, SENT, most)?;
    let mut sides = sides_over(alloc, SCRIPT.as_bytes(), 0)?;
    is_told(rt, alloc, &mut sides, &mut talk)
}

fn is_told<R: Threads + Wait + Sync>(
    rt: &R,
    alloc: Global,
    sides: &mut Sides,
    talk: &mut ListTalk,
) -> Result<bool, AllocError> {
    let status = run_with(rt, alloc, WORDS, sides, talk)?;
    Ok(status == Status::Done && talk.bytes() == ANSWERS && sides.out.bytes() == SUMMARY)
}
