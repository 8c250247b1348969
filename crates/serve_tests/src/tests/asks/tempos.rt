//! Tempos in beats per minute.
//!
//! A minute has 60,000,000 microseconds, and so 120.5 beats of 497,925.31 microseconds. The tempos allowed are those of 60,060 to 3,000,000
//! microseconds per beat, once these are rounded.

use link_asks::{Ask, Command, Reason, ask_of, reason_of};
use std::process::Abort;

// A line, and the microseconds per beat.
const ROWS: &[(&[u8], i64)] = &[
    (b"bpm 20", 3_000_000),
    (b"bpm 20.0", 3_000_000),
    (b"bpm 20.000000", 3_000_000),
    (b"bpm 60", 1_000_000),
    (b"bpm 90.0", 666_667),
    (b"bpm 93.75", 640_000),
    (b"bpm 100.1", 599_401),
    (b"bpm 120", 500_000),
    (b"bpm 120.000001", 500_000),
    (b"bpm 120.5", 497_925),
    (b"bpm 120.500000", 497_925),
    (b"bpm 128.25", 467_836),
    (b"bpm 133.333333", 450_000),
    (b"bpm 174", 344_828),
    (b"bpm 300.300300", 199_800),
    (b"bpm 998.999999", 60_060),
    (b"bpm 999", 60_060),
    // Halves of a microsecond: 2,929,687.5, 976,562.5, 585,937.5, 195,312.5 and 117,187.5.
    (b"bpm 20.48", 2_929_688),
    (b"bpm 61.44", 976_563),
    (b"bpm 102.4", 585_938),
    (b"bpm 307.2", 195_313),
    (b"bpm 512", 117_188),
    // The last ones that round to a tempo allowed: 3,000,000.45 and 60,059.50005.
    (b"bpm 19.999997", 3_000_000),
    (b"bpm 999.009315", 60_060),
];

// Lines that say no tempo.
const MISSES: &[&[u8]] = &[
    b"bpm",
    b"bpm ",
    b"bpm  120",
    b"bpm 120 ",
    b"bpm 120 5",
    b"bpm 120.",
    b"bpm .5",
    b"bpm .",
    b"bpm 120.5.5",
    b"bpm 120..5",
    b"bpm 120,5",
    b"bpm 1e2",
    b"bpm 120.5e0",
    b"bpm +120",
    b"bpm -120",
    b"bpm 120.-5",
    b"bpm 120.+5",
    b"bpm 0120",
    b"bpm 00",
    b"bpm 0",
    b"bpm 0.0",
    b"bpm 0.000000",
    b"bpm 0.000001",
    b"bpm x",
    b"bpm NaN",
    b"bpm inf",
    b"bpm 120bpm",
    b"bpm 120\t",
    // Seven places.
    b"bpm 120.0000000",
    b"bpm 120.1234567",
    // 3,015,075.4, 3,000,000.6, 60,059.49999, 60,059.46 and 60,000.
    b"bpm 19.9",
    b"bpm 19.999996",
    b"bpm 999.009316",
    b"bpm 999.01",
    b"bpm 1000",
    // 120 and 2^64, 120 and 2^64 millionths, 120 and 2^32.
    b"bpm 18446744073709551736",
    b"bpm 18446744073829.551616",
    b"bpm 4294967416",
    b"bpm 340282366920938463463374607431768211576",
    b"bpm 99999999999999999999999999999999999999999999999999999999",
];

fn expect_tempo(rt: &impl Abort, line: &[u8], mpb: i64) {
    assert!(rt; ask_of(line) == Some(Ask::Tempo(mpb)), "{mpb}");
}

// rule: IsBeatsPerMinute
#[test]
fn beats_per_minute_are_rounded_to_whole_microseconds_per_beat(rt: HostRuntime) {
    for &(line, mpb) in ROWS {
        expect_tempo(&rt, line, mpb);
    }
}

fn expect_miss(rt: &impl Abort, line: &[u8], number: usize) {
    let right = ask_of(line).is_none() && reason_of(line) == Reason::Takes(Command::Bpm);
    assert!(rt; right, "{number}");
}

// rule: IsBeatsPerMinute, IsReason
#[test]
fn beats_per_minute_have_no_other_spelling(rt: HostRuntime) {
    for (number, line) in MISSES.iter().enumerate() {
        expect_miss(&rt, line, number);
    }
}
