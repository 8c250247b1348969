//! What is refused before a run: no device is called, and nothing is written.

ghost use Rattle.std.specs.Prelude.{None};

use super::super::rows::line_of;
use super::super::runs::empty_log;
use super::sides::Sides;
use link_live::Report;
use lk_outside::{BytesSink, BytesSource, ListAudio, ListPort, ListTalk, Pace};
use std::alloc::{AllocError, Global};
use std::sync::Wait;
use std::test::Fail;
use std::thread::Threads;

/// A pace that counts how often it is asked, and waits for nothing.
#[derive(Drop)]
struct Counted {
    asks: u64,
}

impl Pace for Counted {
    ghost late = { λ _. None };

    fn until(&mut self, moment: i64) -> i64 {
        self.asks = self.asks.saturating_add(1);
        moment
    }
}

/// The first call of each kind that an object has. As it fails, the object's count of faults tells whether any was made.
const FIRST: &[(u8, u64)] = &[(0, 1), (1, 1), (2, 1)];

/// A script: its first lines, how many lines that look stand behind them, the number of its status, and the line at fault, 0 for none.
type Case = (&'static [u8], u32, u8, u32);

const CASES: &[Case] = &[
    (b"link 1\nat x tempo\n", 0, 8, 2),
    (
        b"link 1\nsetup 500000 1\ngate 127.0.0.1:20808\n",
        4_097,
        10,
        0,
    ),
];

#[test]
fn a_script_that_is_refused_calls_no_device(rt: HostRuntime) -> Result<(), Fail> {
    for case in CASES {
        let (_, looks, status, _) = *case;
        assert!(rt;
            is_refused(&rt, rt.alloc(), *case)?,
            "{status}, {looks} looks"
        );
    }
    Ok(())
}

fn is_refused<R: Threads + Wait + Sync>(
    rt: &R,
    alloc: Global,
    case: Case,
) -> Result<bool, AllocError> {
    let mut port = ListPort::new(alloc, Vec::new(alloc), 1, first_calls(alloc)?)?;
    let mut talk = ListTalk::new(alloc, Vec::new(alloc), 1, 1, first_calls(alloc)?)?;
    let mut sides = sides_of(alloc, case)?;
    is_refused_over(rt, alloc, case, &mut port, &mut talk, &mut sides)
}

fn is_refused_over<R: Threads + Wait + Sync>(
    rt: &R,
    alloc: Global,
    (_, _, number, line): Case,
    port: &mut ListPort,
    talk: &mut ListTalk,
    sides: &mut Sides,
) -> Result<bool, AllocError> {
    let mut pace = Counted { asks: 0 };
    let log = &mut empty_log(alloc);
    let status = sides.run_talking(rt, alloc, "live", port, talk, &mut pace, log)?;
    let calls = [
        port.fault_count(),
        sides.audio.fault_count(),
        talk.fault_count(),
        sides.out.fault_count(),
        pace.asks,
    ];
    Ok(status.number() == number && line_of(status) == line && calls == [0; 5])
}

fn sides_of(alloc: Global, case: Case) -> Result<Sides, AllocError> {
    let script = script_of(alloc, case)?;
    let audio = ListAudio::new(alloc, Vec::new(alloc), first_calls(alloc)?)?;
    let out = BytesSink::new(alloc, 1_000, 1_000, first_calls(alloc)?)?;
    Ok(Sides {
        input: BytesSource::new(script, 4096, Vec::new(alloc)),
        audio,
        out,
        report: Report::new(alloc),
    })
}

fn first_calls(alloc: Global) -> Result<Vec<(u8, u64)>, AllocError> {
    Vec::from_slice(alloc, FIRST)
}

fn script_of(alloc: Global, (head, looks, _, _): Case) -> Result<Vec<u8>, AllocError> {
    let mut script = Vec::from_slice(alloc, head)?;
    for _ in 0..looks {
        script.extend_from_slice(b"at 0 look\n")?;
    }
    Ok(script)
}
