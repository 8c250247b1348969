//! Either cell of rows, whose rows one thread makes and another one reads.
ghost use Rattle.std.specs.Prelude.{◌≡◌, ◌+◌, ◌<◌, length};
ghost use Rattle.std.specs.Thread.{IsSync};
ghost use Rattle.triple_buffer.specs.Views.{writer_in};

use audio_handoff::{Read, SeqState, StateCell};
use std::alloc::Global;
use std::process::Abort;
use std::sync::Wait;
use std::sync::atomic::{AtomicU64, Ordering};
use std::thread;
use std::thread::{Threads, yield_now};
use triple_buffer::Triple;

/// How many rows one thread makes beside another that reads them.
const ROWS: u64 = 10_000;

/// How often the other one reads at least.
const READS: u64 = 10_000;

/// After how many rows the first one waits until the last one was read.
const PHASE: u64 = 1_000;

/// How often rows are handed over so, of each number of words and by each cell.
const TIMES: u32 = 4;

/// How often a thread looks for what another is to do. It lets others run after each look.
const LOOKS: u64 = 10_000_000;

/// What two threads tell each other: how many of them are there, and the number of the row last read.
#[derive(Drop)]
struct Marks {
    there: AtomicU64,
    read: AtomicU64,
}

impl Marks {
    fn new() -> Marks {
        Marks {
            there: AtomicU64::new(0),
            read: AtomicU64::new(0),
        }
    }
}

/// What a reader has found: how many numbers, and whether each row was of its number's words and none older than the one
/// before.
#[derive(Clone, Copy)]
struct Found {
    numbers: u64,
    whole: bool,
}

/// Waits until the mark has come to the number, and tells whether it has.
fn wait_for(mark: &AtomicU64, number: u64) -> bool {
    for _look in 0..LOOKS {
        if mark.load(Ordering::SeqCst) >= number {
            return true;
        }
        yield_now();
    }
    false
}

/// Waits until both threads are there, and tells whether they are.
fn meet(marks: &Marks) -> bool {
    marks.there.fetch_add(1, Ordering::SeqCst);
    wait_for(&marks.there, 2)
}

/// Makes the rows, each of words that are its number. At the end of each phase it waits until that row was read, unless it
/// waited in vain before.
fn publish_all<C: StateCell<W>, const W: usize>(
    cell: &C,
    way: &C::Way,
    mut writer: C::Writer,
    marks: &Marks,
) -> C::Writer
    requires width { W < 16 }
    requires cell { (C.writing writer).cell ≡ C.cell cell.now }
    requires made { length (C.writing writer).made ≡ 1 }
    ensures { (C.writing result).cell ≡ C.cell cell.entry.now }
{
    let mut waits = meet(marks);
    for number in 0..ROWS {
        cell.publish(way, &mut writer, &[number + 1; W]);
        if waits && (number + 1) % PHASE == 0 {
            waits = wait_for(&marks.read, number + 1);
        }
    }
    writer
}

/// Reads that often, and until the last row, and tells the other thread each number.
fn read_all<C: StateCell<W>, const W: usize>(
    cell: &C,
    way: &C::Way,
    mut reader: C::Reader,
    marks: &Marks,
) -> (C::Reader, Found)
    requires width { W < 16 }
    requires cell { (C.reading reader).cell ≡ C.cell cell.now }
    ensures { (C.reading result.0).cell ≡ C.cell cell.entry.now }
{
    let mut found = Found {
        numbers: 1,
        whole: true,
    };
    let mut newest = 0;
    meet(marks);
    for read in 1..LOOKS {
        let Read { number, row } = cell.read(way, &mut reader);
        found.whole = found.whole && number >= newest && row.iter().all(|word| *word == number);
        if number != newest {
            found.numbers = found.numbers.saturating_add(1);
            marks.read.store(number, Ordering::SeqCst);
        } else {
            yield_now();
        }
        newest = number;
        if number >= ROWS && read >= READS {
            break;
        }
    }
    (reader, found)
}

/// Hands rows from one thread to another. Answers the last one, and what the other thread found.
fn hand_over<R: Threads + Sync + Abort, const W: usize>(rt: &R, alloc: Global) -> (Read<W>, Found)
    requires { (0 < W) × (W < 16) }
{
    let made = Triple::<W>::make(alloc, &(), &[0; W]);
    let (cell, writer, reader) = made.expect(rt, "memory for a cell");
    let shared = &cell;
    let told = Marks::new();
    let marks = &told;
    let (writer, (reader, found)) = thread::join(
        rt,
        move ||
            requires { (W < 16) × (writer.seat.table_id ≡ shared.now.table.shared.table_id) × (length (writer_in writer.seat.me.0).made ≡ 1) }
            ensures { result.seat.table_id ≡ shared.entry.now.table.shared.table_id }
        { publish_all::<Triple<W>, W>(shared, &(), writer, marks) },
        move ||
            requires { (W < 16) × (reader.seat.table_id ≡ shared.now.table.shared.table_id) }
            ensures { result.0.seat.table_id ≡ shared.entry.now.table.shared.table_id }
        { read_all::<Triple<W>, W>(shared, &(), reader, marks) },
    );
    (cell.settle(&(), writer, reader), found)
}

/// The same over a cell that may wait.
fn hand_over_waiting<R: Threads + Wait + Sync + Abort, const W: usize>(
    rt: &R,
    alloc: Global,
) -> (Read<W>, Found)
    requires { (0 < W) × (W < 16) }
{
    let made = SeqState::<R, W>::make(alloc, rt, &[0; W]);
    let (cell, writer, reader) = made.expect(rt, "memory for a cell");
    let shared = &cell;
    let told = Marks::new();
    let marks = &told;
    let (writer, (reader, found)) = thread::join(
        rt,
        move ||
            requires { IsSync R.row × (W < 16) × (writer.pass.table_id ≡ shared.now.cell.table.shared.table_id) × (writer.made ≡ 1) }
            ensures { result.pass.table_id ≡ shared.entry.now.cell.table.shared.table_id }
        { publish_all::<SeqState<R, W>, W>(shared, rt, writer, marks) },
        move ||
            requires { IsSync R.row × (W < 16) × (reader.pass.table_id ≡ shared.now.cell.table.shared.table_id) }
            ensures { result.0.pass.table_id ≡ shared.entry.now.cell.table.shared.table_id }
        { read_all::<SeqState<R, W>, W>(shared, rt, reader, marks) },
    );
    (cell.settle(rt, writer, reader), found)
}

/// The last row is the last one made, each row was whole, none older than the one before, and rows were read while rows
/// were made.
fn check_found<const W: usize>(rt: &impl Abort, last: Read<W>, found: Found)
    requires { W < 16 }
{
    let row = [ROWS; W];
    assert_eq!(rt; last, Read { number: ROWS, row });
    assert!(rt; found.whole, "rows of {W} words");
    let numbers = found.numbers;
    assert!(rt; numbers > 2, "{numbers} numbers of rows of {W} words");
}

fn check_threads<R: Threads + Wait + Sync + Abort, const W: usize>(rt: &R, alloc: Global)
    requires { (0 < W) × (W < 16) }
{
    let (last, found) = hand_over::<R, W>(rt, alloc);
    check_found(rt, last, found);
    let (last, found) = hand_over_waiting::<R, W>(rt, alloc);
    check_found(rt, last, found);
}

fn check_widths<R: Threads + Wait + Sync + Abort>(rt: &R, alloc: Global) {
    check_threads::<R, 1>(rt, alloc);
    check_threads::<R, 11>(rt, alloc);
    check_threads::<R, 15>(rt, alloc);
}

// rule: IsOneRead, WereMade, AreApart
#[test]
fn rows_that_one_thread_makes_are_read_whole_and_in_order_by_another(rt: HostRuntime) {
    for _ in 0..TIMES {
        check_widths(&rt, rt.alloc());
    }
}
