//! Runs worked out by hand: the words that are given, and behind `=` what is told.
//!
//! A node opens with a tick due. Its first turn pops the first item and takes that tick, in which it broadcasts; the second turn is the
//! first that asks the port, unless a tick is due again. It broadcasts once more 250,000 microseconds later, or 50,000 where what it
//! tells has changed.

// The first turn, and the end. A commit stands before the tick of its turn, one behind the quit isn't taken, and what comes after the
// last turn stays. The greatest moment is 2^55, which nothing is past.
pub const OPENINGS: &str = "\
    g1 q = t0 | a11 | 0+0 @0\n\
    g0 q = t0 | | 0+0 @0\n\
    g2 g1 q = t0 | a11 a12 A21 | 0+0 @0\n\
    @0 g1 q = t0 | a11 | 0+0 @0\n\
    @36_028_797_018_963_968 g1 x0 x-7 c c q = c0 t0 c0 x0 x0 | a11 | 2+0 @0\n\
    @36_028_797_018_963_968 g1 i9 c q = c0 t0 | a11 | 1+0 @0\n\
    g1 c q = c0 t0 | a11 | 0+0 @0\n\
    g1 x5 q = t0 | a11 | 0+1 @0\n\
    g1 q c = t0 | a11 | 0+0 @0\n\
    g1 x5 x6 c q c c = c0 t0 x5 | a11 | 1+1 @5\n\
    ";

// Time alone before, at and past the moment at which the tick is due, and at a moment that is past. The tick carries the moment that it
// is heard at, and the next one is due 250,000 microseconds after that.
pub const WAITS: &str = "\
    g1 i249_999 c q = c0 t0 | a11 | 1+0 @249999\n\
    g1 i250_000 c q = c0 t0 t250000 | a11 a11 | 1+0 @250000\n\
    g1 i250_001 c q = c0 t0 t250001 | a11 a11 | 1+0 @250001\n\
    g1 i9_000_000 c c q = c0 t0 c9000000 t9000000 | a11 a11 | 1+0 @9000000\n\
    g1 i100 i200 i250_000 c c c q = c0 t0 c100 c200 t250000 | a11 a11 | 3+0 @250000\n\
    g1 i250_000 i499_999 i500_000 c c c q = c0 t0 c250000 t250000 c499999 t500000 | a11 a11 a11 | 3+0 @500000\n\
    g1 i250_001 i500_000 i500_001 c c c q = c0 t0 c250001 t250001 c500000 t500001 | a11 a11 a11 | 3+0 @500001\n\
    g1 i100 i40 i250_000 c c c q = c0 t0 c100 c100 t250000 | a11 a11 | 3+0 @250000\n\
    g1 i-40 c q = c0 t0 | a11 | 1+0 @0\n\
    ";

// Datagrams before, at and past the moment at which the tick is due: the datagram stands first, and the tick in the turn after it, with
// the datagram's moment. One that comes at a moment that is past carries the clock. The greatest datagram that is read has 512 bytes.
pub const DATAGRAMS: &str = "\
    g1 x249_999 c q = c0 t0 x249999 | a11 | 1+0 @249999\n\
    g1 x250_000 c q = c0 t0 x250000 | a11 | 1+0 @250000\n\
    g1 x250_000 c c q = c0 t0 c250000 x250000 t250000 | a11 a11 | 1+0 @250000\n\
    g1 x300_000 x300_000 c c c q = c0 t0 c300000 x300000 c300000 t300000 x300000 | a11 a11 | 2+0 @300000\n\
    g1 x249_999 x250_000 x250_000 c c c q = c0 t0 c249999 x249999 c250000 x250000 t250000 | a11 a11 | 2+1 @250000\n\
    g1 x60_000 x60_000 c c q = c0 t0 c60000 x60000 x60000 | a11 | 2+0 @60000\n\
    g1 x100 x50 c c q = c0 t0 c100 x100 x100 | a11 | 2+0 @100\n\
    g1 x300_000 x10 c c c q = c0 t0 c300000 x300000 c300000 t300000 x300000 | a11 a11 | 2+0 @300000\n\
    g1 x300_000 i10 x20 c c c c q = c0 t0 c300000 x300000 c300000 t300000 c300000 x300000 | a11 a11 | 3+0 @300000\n\
    g1 x-1 c q = c0 t0 x0 | a11 | 1+0 @0\n\
    g1 l5 c q = c0 t0 l5 | a11 | 1+0 @5\n\
    g1 j5 c q = c0 t0 j5 | a11 rj | 1+0 @5\n\
    g1 z5 c q = c0 t0 z5 | a11 | 1+0 @5\n\
    ";

// Two gates: their alives in order, each answer on the gate of its datagram, to its sender. A peer that is seen on both is there until
// its second bye; then the node founds a session, and tells so. A pong counts on the gate of its ping alone.
pub const GATES: &str = "\
    g1 g2 x5 X6 c c q = c0 t0 c5 x5 X6 | a11 A21 A22 | 2+0 @6\n\
    g0 g1 A5 i250_000 c c q = c0 t0 c5 A5 t250000 | A21 Ra A21 | 2+0 @250000\n\
    g1 g1 p5 P6 c c q = c0 t0 c5 p5 P6 | a11 A21 op Op | 2+0 @6\n\
    g0 g0 P5 p6 c c q = c0 t0 c5 P5 p6 | Op op | 2+0 @6\n\
    g0 g0 A5 c q = c0 t0 A5 | Ra | 1+0 @5\n\
    g1 g1 a5 A6 b7 i50_000 c c c c q = c0 t0 c5 a5 c6 A6 c7 b7 | a11 A21 ra Ra | 4+0 @50000\n\
    g1 g1 a5 A6 b7 B8 i50_000 c c c c c q = c0 t0 c5 a5 c6 A6 c7 b7 c8 B8 t50000 | a11 A21 ra Ra a11 A21 | 5+0 @50000\n\
    g1 g1 N5 c c q = c0 t0 c5 N5 t5 | a11 A21 Rn Pn | 1+0 @5\n\
    g1 g1 n5 O6 c c c q = c0 t0 c5 n5 c5 t5 O6 | a11 A21 rn pn | 2+0 @6\n\
    g1 g1 N5 O6 c c c q = c0 t0 c5 N5 c5 t5 O6 | a11 A21 Rn Pn Yn | 2+0 @6\n\
    ";

// What is answered. A ping by a pong. An alive by a response; its row ends 6,000,000 microseconds later (its time to live and a second),
// and a tick is due then: nobody is left, so the node founds a session and tells it. With a bye that is so at once: a broadcast is due
// 50,000 microseconds after the last. So it is after an alive with a later beat origin, and not where that is known.
//
// The founder of another session is measured: a tick is due at the moment of its alive, which sends a ping, before the alives where those
// are due too. The ping is sent again 50,000 microseconds later, or at once after a pong.
pub const ANSWERS: &str = "\
    g1 p5 c q = c0 t0 p5 | a11 op | 1+0 @5\n\
    g1 p5 p5 p4 c c c q = c0 t0 c5 p5 c5 p5 p5 | a11 op op op | 3+0 @5\n\
    g1 a5 c q = c0 t0 a5 | a11 ra | 1+0 @5\n\
    g1 a5 i5_900_000 i6_000_004 i6_000_005 c c c c q = c0 t0 c5 a5 c5900000 t5900000 c6000004 t6000005 | a11 ra a11 a11 | 4+0 @6000005\n\
    g1 a5 b6 i49_999 c c c q = c0 t0 c5 a5 c6 b6 | a11 ra | 3+0 @49999\n\
    g1 a5 b6 i50_000 c c c q = c0 t0 c5 a5 c6 b6 t50000 | a11 ra a11 | 3+0 @50000\n\
    g1 b6 i50_000 c c q = c0 t0 c6 b6 | a11 | 2+0 @50000\n\
    g1 k5 i49_999 c c q = c0 t0 c5 k5 | a11 rk | 2+0 @49999\n\
    g1 k5 i50_000 c c q = c0 t0 c5 k5 t50000 | a11 rk a11 | 2+0 @50000\n\
    g1 k60_000 x60_000 c c c q = c0 t0 c60000 k60000 c60000 t60000 x60000 | a11 rk a11 | 2+0 @60000\n\
    g1 k60_000 k60_000 i120_000 c c c c q = c0 t0 c60000 k60000 c60000 t60000 c60000 k60000 | a11 rk a11 rk | 3+0 @120000\n\
    g1 n5 c c q = c0 t0 c5 n5 t5 | a11 rn pn | 1+0 @5\n\
    g1 n5 x5 c c c q = c0 t0 c5 n5 c5 t5 x5 | a11 rn pn | 2+0 @5\n\
    g1 n5 o6 c c c q = c0 t0 c5 n5 c5 t5 o6 | a11 rn pn yn | 2+0 @6\n\
    g1 n5 i50_004 i50_005 c c c c q = c0 t0 c5 n5 c5 t5 c50004 t50005 | a11 rn pn pn | 3+0 @50005\n\
    g1 n5 o6 i50_005 i50_006 c c c c c q = c0 t0 c5 n5 c5 t5 c6 o6 c50005 t50006 | a11 rn pn yn pn | 4+0 @50006\n\
    g1 n250_000 c c q = c0 t0 c250000 n250000 t250000 | a11 rn pn a11 | 1+0 @250000\n\
    ";

// Commits. One of a start or a timeline changes what the node tells, so that a tick is due 50,000 microseconds after the last broadcast:
// in the turn after, where that is past. What came in the same turn stands behind the commit, and no tick between them. The audio
// thread's last commit stands behind the application's.
pub const COMMITS: &str = "\
    g1 s q = c0 t0 | a11 | 0+0 @0\n\
    g1 i50_000 c s q = c0 t0 c50000 t50000 | a11 a11 | 1+0 @50000\n\
    g1 i49_999 i50_000 c s c q = c0 t0 c49999 c50000 t50000 | a11 a11 | 2+0 @50000\n\
    g1 i50_000 c c q = c0 t0 c50000 | a11 | 1+0 @50000\n\
    g1 i60_000 c t q = c0 t0 c60000 t60000 | a11 a11 | 1+0 @60000\n\
    g1 x60_000 c t c q = c0 t0 c60000 x60000 c60000 t60000 | a11 a11 | 1+0 @60000\n\
    g1 x60_000 x60_000 c t c c q = c0 t0 c60000 x60000 c60000 t60000 c60000 x60000 | a11 a11 | 2+0 @60000\n\
    g1 i60_000 i60_000 c t t t q = c0 t0 c60000 c60000 t60000 c60000 | a11 a11 | 2+0 @60000\n\
    g1 u q = u0 t0 | a11 | 0+0 @0\n\
    g1 u u q = u0 t0 | a11 | 0+0 @0\n\
    g1 c u q = c0 u0 t0 | a11 | 0+0 @0\n\
    ";

// The k-th receive fails: the port isn't called again, commits are taken as before, and a tick that is due later isn't sent. A datagram
// of a gate that isn't bound fails too. A port that is closed isn't asked again, so that the second receive can't fail.
pub const RECEIVES: &str = "\
    g1 f1 x5 c c q = c0 t0 c0 | a11 | 0+1 @0 !1\n\
    g1 f2 x5 x6 c c c q = c0 t0 c5 x5 c5 | a11 | 1+1 @5 !1\n\
    g1 f3 x5 x6 x7 c c c c q = c0 t0 c5 x5 c6 x6 c6 | a11 | 2+1 @6 !1\n\
    g1 f1 f2 f3 w2 x5 c c c q = c0 t0 c0 c0 | a11 | 0+1 @0 !1\n\
    g1 f2 p260_000 c c c q = c0 t0 c260000 p260000 c260000 t260000 | a11 op a11 | 1+0 @260000 !1\n\
    g1 f2 i60_000 c c t c q = c0 t0 c60000 c60000 c60000 t60000 | a11 | 1+0 @60000 !1\n\
    g1 f2 x5 c c q = c0 t0 c5 x5 | a11 | 1+0 @5 !1\n\
    g1 f2 c c q = c0 t0 c0 | a11 | 0+0 @0\n\
    g1 X5 c q = c0 t0 | a11 | 0+1 @0 !1\n\
    g1 p5 P6 x7 c c c q = c0 t0 c5 p5 c5 | a11 op | 1+2 @5 !1\n\
    ";

// The k-th send fails, or there is no room: the datagrams before it are posted, and none after it; the port isn't asked again. Ticks that
// are due then aren't sent.
pub const SENDS: &str = "\
    g1 w1 x5 c q = c0 t0 | | 0+1 @0 !1\n\
    g2 w1 x5 c q = c0 t0 | | 0+1 @0 !1\n\
    g2 w2 x5 c q = c0 t0 | a11 | 0+1 @0 !1\n\
    g2 g1 w3 c q = c0 t0 | a11 a12 | 0+0 @0 !1\n\
    g1 g1 w2 q = t0 | a11 | 0+0 @0 !1\n\
    g1 w2 p5 p6 c c q = c0 t0 c5 p5 | a11 | 1+1 @5 !1\n\
    g1 w3 p5 p6 p7 c c c q = c0 t0 c5 p5 c6 p6 | a11 op | 2+1 @6 !1\n\
    g1 w1 w2 w3 f1 p5 c c q = c0 t0 c0 | | 0+1 @0 !1\n\
    g1 w2 f1 a5 c q = c0 t0 | a11 | 0+1 @0 !1\n\
    g1 w2 f2 a5 x6 c c q = c0 t0 c5 a5 | a11 | 1+1 @5 !1\n\
    g1 w3 n250_000 c c q = c0 t0 c250000 n250000 t250000 | a11 rn | 1+0 @250000 !1\n\
    g1 w4 n250_000 c c q = c0 t0 c250000 n250000 t250000 | a11 rn pn | 1+0 @250000 !1\n\
    g1 w2 k60_000 x60_000 c c c q = c0 t0 c60000 k60000 c60000 t60000 | a11 | 1+1 @60000 !1\n\
    g1 h0 q = t0 | | 0+0 @0 !1\n\
    g2 h1 x5 c q = c0 t0 | a11 | 0+1 @0 !1\n\
    ";

// A full journal: the first event that finds no room isn't taken, nor any after it, and nothing is asked for. What that event would have
// sent isn't sent; the arrival that brought it is given.
pub const JOURNALS: &str = "\
    g1 m1 q = t0 | a11 | 0+0 @0\n\
    g1 m1 c q = c0 | | 0+0 @0 #\n\
    g1 m1 x5 c c q = c0 | | 0+1 @0 #\n\
    g1 m1 u q = u0 | | 0+0 @0 #\n\
    g1 m2 c u q = c0 u0 | | 0+0 @0 #\n\
    g1 m2 x5 c q = c0 t0 | a11 | 1+0 @5 #\n\
    g1 m2 p5 x6 c c q = c0 t0 | a11 | 1+1 @5 #\n\
    g1 m2 i5 i6 c c q = c0 t0 | a11 | 1+1 @5 #\n\
    g1 m3 x5 c q = c0 t0 x5 | a11 | 1+0 @5\n\
    g1 m3 x5 x6 c c q = c0 t0 c5 | a11 | 1+1 @5 #\n\
    g1 m3 i250_000 x250_001 c c c q = c0 t0 c250000 | a11 | 1+1 @250000 #\n\
    g1 m4 p5 p6 p7 c c c q = c0 t0 c5 p5 | a11 op | 2+1 @6 #\n\
    g1 m4 n5 x6 c c q = c0 t0 c5 n5 | a11 rn | 1+1 @5 #\n\
    g1 m4 w2 p5 x6 c c c q = c0 t0 c5 p5 | a11 | 1+1 @5 !1 #\n\
    g1 m2 f1 x5 c c q = c0 t0 | a11 | 0+1 @0 !1 #\n\
    ";

// No gate is bound, or binding failed: the port isn't called, and the turns go on.
pub const UNBOUND: &str = "\
    g1 ! q = t0 | | 0+0 @0 !0\n\
    g1 ! x5 c c q = c0 t0 c0 | | 0+1 @0 !0\n\
    g2 g2 ! a5 s c c q = c0 t0 c0 c0 | | 0+1 @0 !0\n\
    g1 ! f1 w1 x5 t q = c0 t0 | | 0+1 @0 !0\n\
    g1 ! m1 x5 c q = c0 | | 0+1 @0 !0 #\n\
    g1 ! i250_000 u c q = c0 u0 t0 | | 0+1 @0 !0\n\
    g1 v1 x5 c q = c0 t0 | | 0+1 @0 !1\n\
    ";

// Until when each receive is to wait: 5,000 microseconds after the clock, or until the next tick is due, where that is earlier. That is
// the next broadcast, 50,000 after the last where something has changed, or the end of a ping's 50,000. A closed or failed port isn't
// asked again, nor with a full journal, nor where a tick is due already.
pub const UNTILS: &str = "\
    g1 q = \n\
    g1 c q = 5000 \n\
    g1 c c c q = 5000 \n\
    g1 x100 x50 c c c q = 5000 5100 5100 \n\
    g1 x5 x244_999 x245_001 c c c c q = 5000 5005 249999 250000 \n\
    g1 x5 x245_000 x249_999 c c c c q = 5000 5005 250000 250000 \n\
    g1 x250_000 x251_000 c c c c q = 5000 255000 256000 \n\
    g1 n48_000 i96_000 c c c c q = 5000 53000 98000 \n\
    g1 k48_000 c c q = 5000 50000 \n\
    g1 i48_000 c t c q = 5000 50000 \n\
    g1 i60_000 c t c q = 5000 65000 \n\
    g1 ! x5 c q = \n\
    g1 m2 x5 x6 c c q = 5000 \n\
    g1 f1 x5 c c q = 5000 \n\
    @36_028_797_018_963_968 g1 c q = 5000 \n\
    ";
