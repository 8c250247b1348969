//! What is read of live scripts.

use crate::tests::machine::{expect, fail};
use link_script::{Act, AppCommand, BlockCommand};
use link_text::read_live;
use std::process::Abort;

const APPS: &[AppCommand] = &[
    AppCommand {
        at: 0,
        act: Act::Tempo(60_060),
    },
    AppCommand {
        at: 36_028_797_018_963_968,
        act: Act::Play,
    },
    AppCommand {
        at: 1,
        act: Act::Tempo(3_000_000),
    },
    AppCommand {
        at: 7,
        act: Act::Stop,
    },
    AppCommand {
        at: 8,
        act: Act::Look,
    },
    AppCommand {
        at: 9,
        act: Act::Force(-1_152_921_504_606_846_976),
    },
    AppCommand {
        at: 10,
        act: Act::Request(1_152_921_504_606_846_976),
    },
    AppCommand {
        at: 11,
        act: Act::Quantum(0),
    },
];

const BLOCKS: &[BlockCommand] = &[
    BlockCommand {
        block: 4,
        act: Act::Quantum(1_099_511_627_776),
    },
    BlockCommand {
        block: 524_288,
        act: Act::Play,
    },
    BlockCommand {
        block: 1,
        act: Act::Tempo(500_000),
    },
    BlockCommand {
        block: 3,
        act: Act::Stop,
    },
];

// rule: is_passed, IsLiveScript, act_words, IsBlockAct
#[test]
fn commands_are_read_in_the_order_of_their_lines(rt: HostRuntime) {
    let text: &[u8] = b"link 1\nsetup 500000 1\ngate 127.0.0.1:20808\n\
at 0 tempo 60060\nblock 4 quantum 1099511627776\nat 36028797018963968 play\n\nat 1 tempo 3000000\n\
block 524288 play\nat 7 stop\n# at 5 look\nat 8 look\nat 9 force -1152921504606846976\n\
at 10 request 1152921504606846976\nblock 1 tempo 500000\nblock 3 stop\nat 11 quantum 0";
    match read_live(rt.alloc(), text) {
        Ok(script) => {
            expect(&rt, 0, &script.apps.as_slice(), &APPS);
            expect(&rt, 1, &script.blocks.as_slice(), &BLOCKS);
        }
        Err(_fault) => fail(&rt, 0),
    }
}
