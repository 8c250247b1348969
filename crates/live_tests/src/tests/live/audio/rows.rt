//! Runs worked out by hand: what is given, and what is told.

use lk_outside::{NEXT, PLAY};

/// What is given to a run, and what is told of it.
pub struct Row {
    /// How many blocks are asked for, and how many the device has.
    pub blocks: u16,
    pub device: u16,
    /// The call of the device that fails: the k-th ask, or the k-th play.
    pub failing: (u8, u64),
    /// Whether a commit was made before.
    pub commits: bool,
    pub commands: &'static str,
    pub told: &'static str,
}

/// A call that is never made.
const NEVER: (u8, u64) = (NEXT, 0);

pub const ROWS: &[Row] = &[
    Row {
        blocks: 0,
        device: 2,
        failing: NEVER,
        commits: false,
        commands: "",
        told: "| | | true 0+2 !0",
    },
    Row {
        blocks: 3,
        device: 1,
        failing: NEVER,
        commits: false,
        commands: "",
        told: "500000- | | [] | true 1+0 !0",
    },
    Row {
        blocks: 2,
        device: 2,
        failing: NEVER,
        commits: false,
        commands: "",
        told: "500000- 500000- | | [] [] | true 2+0 !0",
    },
    Row {
        blocks: 1,
        device: 3,
        failing: NEVER,
        commits: false,
        commands: "",
        told: "500000- | | [] | true 1+2 !0",
    },
    Row {
        blocks: 3,
        device: 3,
        failing: (NEXT, 1),
        commits: false,
        commands: "block 1 play\n",
        told: "| | | false 0+3 !1",
    },
    Row {
        blocks: 3,
        device: 3,
        failing: (NEXT, 2),
        commits: false,
        commands: "block 1 play\n",
        told: "500000- | p1000000 s1000000 @1000000 | [] | false 1+2 !1",
    },
    Row {
        blocks: 3,
        device: 3,
        failing: (NEXT, 3),
        commits: false,
        commands: "block 1 play\n",
        told: "500000- 500000p | p1000000 s1000000 @1000000 | [] [2000000 2500000] | false 2+1 !1",
    },
    Row {
        blocks: 3,
        device: 3,
        failing: (PLAY, 1),
        commits: false,
        commands: "block 1 play\n",
        told: "500000- | | | false 1+2 !1",
    },
    Row {
        blocks: 3,
        device: 3,
        failing: (PLAY, 2),
        commits: false,
        commands: "block 1 play\nblock 2 stop\n",
        told: "500000- 500000p | p1000000 s1000000 @1000000 | [] | false 2+1 !1",
    },
    Row {
        blocks: 3,
        device: 3,
        failing: (PLAY, 3),
        commits: false,
        commands: "block 1 play\n",
        told: "500000- 500000p 500000p | p1000000 s1000000 @1000000 | [] [2000000 2500000] | false 3+0 !1",
    },
    Row {
        blocks: 2,
        device: 2,
        failing: NEVER,
        commits: false,
        commands: "block 1 tempo 250000\n",
        told: "500000- 250000- | 250000,0,1000000 @1000000 | [] [] | true 2+0 !0",
    },
    Row {
        blocks: 3,
        device: 3,
        failing: NEVER,
        commits: false,
        commands: "block 1 play\n",
        told: "500000- 500000p 500000p | p1000000 s1000000 @1000000 | [] [2000000 2500000] [3000000* 3500000] | true 3+0 !0",
    },
    Row {
        blocks: 2,
        device: 2,
        failing: NEVER,
        commits: false,
        commands: "block 1 tempo 250000\nblock 1 play\n",
        told: "500000- 250000p | 250000,0,1000000 @1000000 250000,0,1000000 p1000000 s1000000 @1000000 | [] [2000000* 2250000 2500000 2750000] | true 2+0 !0",
    },
    Row {
        blocks: 2,
        device: 2,
        failing: NEVER,
        commits: false,
        commands: "block 1 play\nblock 2 tempo 250000\n",
        told: "500000- 500000p | p1000000 s1000000 @1000000 250000,0,1500000 p1000000 s2000000 @2000000 | [] [2000000 2500000] | true 2+0 !0",
    },
    Row {
        blocks: 3,
        device: 3,
        failing: NEVER,
        commits: false,
        commands: "block 2 stop\nblock 1 play\n",
        told: "500000- 500000p 500000- | p1000000 s1000000 @1000000 q2000000 s2000000 @2000000 | [] [2000000 2500000] [] | true 3+0 !0",
    },
    // Beats 2 and 3 are in the second block, 4 and 5 in the third: of four beats 4 is the first, and of two and a half 5.
    Row {
        blocks: 3,
        device: 3,
        failing: NEVER,
        commits: false,
        commands: "block 1 play\nblock 2 quantum 2500000\n",
        told: "500000- 500000p 500000p | p1000000 s1000000 @1000000 p1000000 s2000000 b2500000 @2000000 | [] [2000000 2500000] [3000000 3500000*] | true 3+0 !0",
    },
    Row {
        blocks: 2,
        device: 2,
        failing: NEVER,
        commits: false,
        commands: "block 3 play\nblock 9 tempo 250000\n",
        told: "500000- 500000- | | [] [] | true 2+0 !0",
    },
    Row {
        blocks: 2,
        device: 2,
        failing: NEVER,
        commits: true,
        commands: "block 1 tempo 250000\n",
        told: "500000p 250000p | 250000,0,1000000 p1500000 s1000000 @1000000 | [1500000] [2000000* 2250000 2500000 2750000] | true 2+0 !0",
    },
];
