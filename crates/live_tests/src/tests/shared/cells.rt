//! Either cell of rows, by the steps of one thread.
ghost use Rattle.std.specs.Prelude.{◌≡◌};
ghost use Rattle.std.specs.Option.{ForSome};

use audio_handoff::{Read, SeqState, StateCell};
use std::alloc::Global;
use std::process::Abort;
use std::sync::Wait;
use triple_buffer::Triple;

/// The rows stand under their numbers; the first is the opening row.
const ROWS: &[[u64; 9]] = &[
    [0, 1, 2, 3, 4, 5, 6, 7, 8],
    [10, 11, 12, 13, 14, 15, 16, 17, 18],
    [20, 21, 22, 23, 24, 25, 26, 27, 28],
    [30, 31, 32, 33, 34, 35, 36, 37, 38],
    [40, 41, 42, 43, 44, 45, 46, 47, 48],
    [50, 51, 52, 53, 54, 55, 56, 57, 58],
    [60, 61, 62, 63, 64, 65, 66, 67, 68],
    [70, 71, 72, 73, 74, 75, 76, 77, 78],
    [80, 81, 82, 83, 84, 85, 86, 87, 88],
    [90, 91, 92, 93, 94, 95, 96, 97, 98],
];

/// The steps of a case, and behind the sign the number of the row that the cell ends with. The number of a row is that of the
/// rows made before it, so a read answers how often p stands before it.
///
/// p: publish the next row. r: read. l: ask for the number last read. A digit behind one of these two is the number that it
/// answers. w, n: a note of the writer or the reader. t: tell that note. c: tell a copy of it. o: tell a note of the reader
/// beside it.
const CASES: &str = "\
    r0pwtr1ppwctr3ntr3=3 =0 p=1 pp=2 ppppp=5 r0=0 r0r0=0 r0p=1 pr1=1 pr1r1=1 pr1p=2 ppr2=2 ppr2r2r2=2 \
    r0pr1=1 r0pr1pr2=2 r0pr1pr2pr3=3 r0ppr2=2 r0pppr3ppr5=5 pppppppppr9=9 wt=0 wtr0=0 ntr0=0 pwtr1=1 \
    pwpr2t=2 pwprtr2=2 ppwtr2=2 pwppctr3=3 pwcr1tr1=1 wpctr1=1 ncr0tr0=0 pr1ntr1=1 pr1npctr2=2 \
    pr1npr2ctr2=2 pr1nppwtr3=3 wwwtr0=0 pwcccctr1=1 t=0 cr0=0 ttpr1=1 pr1wppr3tr3p=4 r0nppr2t=2 \
    ppwr2ctppr4=4 prpnrpwctrpr4=4 l0r0pwtr1ppwcr3otl3=3 l0r0r0ppl0r2l2=2 \
";

/// What stands for a row that isn't there: words that no row has.
const NO_ROW: [u64; 9] = [99; 9];

/// A cell with its tokens, at most one note, the number of the row made last, what was answered last, and whether each row got the next
/// number, and no writer was spent.
#[derive(Drop)]
struct Bench<C: StateCell<9>> {
    cell: C,
    writer: C::Writer,
    reader: C::Reader,
    note: Option<C::Note>,
    made: u64,
    answer: Read<9>,
    right: bool,
    ghost writer_is: { (C.writing writer).cell ≡ C.cell cell },
    ghost reader_is: { (C.reading reader).cell ≡ C.cell cell },
    ghost note_is: { ForSome note (λ n. (C.noting n).cell ≡ C.cell cell) },
}

/// What a read of the row of that number answers.
fn read_of(number: u64) -> Read<9> {
    Read {
        number,
        row: ROWS.get(number as usize).copied().unwrap_or(NO_ROW),
    }
}

impl<C: StateCell<9>> Bench<C> {
    fn open(rt: &impl Abort, alloc: Global, way: &C::Way) -> Bench<C> {
        let opening = read_of(0);
        let made = C::make(alloc, way, &opening.row);
        let (cell, writer, reader) = made.expect(rt, "memory for a cell");
        Bench {
            cell,
            writer,
            reader,
            note: None,
            made: 0,
            answer: opening,
            right: true,
        }
    }

    /// Makes a row.
    fn publish(&mut self, way: &C::Way, row: &[u64; 9]) {
        let Bench {
            cell,
            writer,
            made,
            right,
            ..
        } = self;
        let before = *made;
        if !cell.is_spent(writer) {
            *made = cell.publish(way, writer, row);
        }
        *right = *right & (made.wrapping_sub(before) == 1);
    }

    fn note_of_writer(&mut self, rt: &impl Abort, alloc: Global, way: &C::Way) {
        let Bench {
            cell,
            writer,
            note,
            ..
        } = self;
        let made = cell.note_of_writer(alloc, way, writer);
        *note = Some(made.expect(rt, "memory for a note"));
    }

    fn note_of_reader(&mut self, rt: &impl Abort, alloc: Global, way: &C::Way) {
        let Bench {
            cell,
            reader,
            note,
            ..
        } = self;
        let made = cell.note_of_reader(alloc, way, reader);
        *note = Some(made.expect(rt, "memory for a note"));
    }

    /// Tells a note of the reader that is made at once.
    fn tell_own(&mut self, rt: &impl Abort, alloc: Global, way: &C::Way) {
        let Bench { cell, reader, .. } = self;
        let made = cell.note_of_reader(alloc, way, reader);
        cell.tell(way, reader, made.expect(rt, "memory for a note"));
    }

    fn tell_copy(&mut self, rt: &impl Abort, alloc: Global, way: &C::Way) {
        let Bench {
            cell,
            reader,
            note,
            ..
        } = self;
        if let Some(first) = note {
            let copy = cell.copy_note(alloc, way, first);
            cell.tell(way, reader, copy.expect(rt, "memory for a note"));
        }
    }

    fn tell_note(&mut self, way: &C::Way) {
        let Bench {
            cell,
            reader,
            note,
            ..
        } = self;
        if let Some(last) = note.take() {
            cell.tell(way, reader, last);
        }
    }

    fn read(&mut self, way: &C::Way) {
        let Bench {
            cell,
            reader,
            answer,
            ..
        } = self;
        *answer = cell.read(way, reader);
    }

    fn take_step(&mut self, rt: &impl Abort, alloc: Global, way: &C::Way, step: u8) {
        match step {
            b'p' => self.publish(way, &read_of(self.made.saturating_add(1)).row),
            b'r' => self.read(way),
            b'l' => self.answer = read_of(self.cell.last_read(&self.reader)),
            b't' => self.tell_note(way),
            b'w' => self.note_of_writer(rt, alloc, way),
            b'n' => self.note_of_reader(rt, alloc, way),
            b'o' => self.tell_own(rt, alloc, way),
            b'c' => self.tell_copy(rt, alloc, way),
            _ => self.right = false,
        }
    }

    /// Ends the cell, and answers the last row.
    fn settle(self, way: &C::Way) -> Read<9> {
        let Bench {
            cell,
            writer,
            reader,
            ..
        } = self;
        cell.settle(way, writer, reader)
    }
}

/// Fails, telling the case, where an answer isn't the row of that number.
fn expect_read(rt: &impl Abort, case: &str, found: &Read<9>, number: u64) {
    assert!(rt; *found == read_of(number), "{case}");
}

/// Takes the steps, and compares each answer.
fn take_steps<C: StateCell<9>>(
    rt: &impl Abort,
    alloc: Global,
    way: &C::Way,
    bench: &mut Bench<C>,
    steps: &str,
) {
    for step in steps.bytes() {
        if step.is_ascii_digit() {
            expect_read(rt, steps, &bench.answer, u64::from(step - b'0'));
        } else {
            bench.take_step(rt, alloc, way, step);
        }
    }
    assert!(rt; bench.right, "{steps}");
}

/// Runs a case over a cell.
fn run_case<C: StateCell<9>>(rt: &impl Abort, alloc: Global, way: &C::Way, case: &str) {
    let (steps, last) = case.split_once('=').unwrap_or((case, ""));
    let last = last.parse::<u64>().unwrap_or(1000);
    let mut bench = Bench::<C>::open(rt, alloc, way);
    take_steps(rt, alloc, way, &mut bench, steps);
    expect_read(rt, case, &bench.settle(way), last);
}

/// Runs a case over either cell.
fn run_both<R: Wait + Abort>(rt: &R, alloc: Global, case: &str) {
    run_case::<Triple<9>>(rt, alloc, &(), case);
    run_case::<SeqState<R, 9>>(rt, alloc, rt, case);
}

// rule: WriterView, IsLast, KnowsNewest
#[test]
fn either_cell_answers_as_the_lists_say(rt: HostRuntime) {
    let mut count = 0u64;
    for case in CASES.split_whitespace() {
        run_both(&rt, rt.alloc(), case);
        count = count.saturating_add(1);
    }
    assert_eq!(rt; count, 45);
}
