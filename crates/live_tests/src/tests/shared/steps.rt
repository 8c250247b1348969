//! How many atomic steps a publish and a read of a state take. The counts stand in ghost members: that each call here raises them so is
//! proved with the tests, and a run shows that it answers what was published.
ghost use Rattle.std.specs.Prelude.{◌≡◌, ◌⊎◌, ◌<◌, ◌^◌, ◌+◌, true, length};

use audio_handoff::StateCell;
use triple_buffer::Triple;

/// Publishes a row of a state's eleven words, in 12 steps. Answers its number.
fn publish_counted<C: StateCell<11>>(
    cell: &C,
    way: &C::Way,
    writer: &mut C::Writer,
    row: &[u64; 11],
) -> u64
    requires told { C.tells_steps ≡ true }
    requires cell { (C.writing writer.old).cell ≡ C.cell cell.now }
    requires room { length (C.writing writer.old).made < 2 ^ 60 }
    ensures cell { (C.writing writer.new).cell ≡ C.cell cell.now }
    ensures made { length (C.writing writer.new).made ≡ length (C.writing writer.old).made + 1 }
    ensures steps { (C.writing writer.new).steps ≡ (C.writing writer.old).steps + 12 }
{
    cell.publish(way, writer, row)
}

/// Reads a row of a state's eleven words, in 12 or 13 steps. Answers its number and its first word.
fn read_counted<C: StateCell<11>>(cell: &C, way: &C::Way, reader: &mut C::Reader) -> (u64, u64)
    requires told { C.tells_steps ≡ true }
    requires cell { (C.reading reader.old).cell ≡ C.cell cell.now }
    ensures cell { (C.reading reader.new).cell ≡ C.cell cell.now }
    ensures steps { ((C.reading reader.new).steps ≡ (C.reading reader.old).steps + 12)
        ⊎ ((C.reading reader.new).steps ≡ (C.reading reader.old).steps + 13) }
{
    let read = cell.read(way, reader);
    (read.number, read.row[0])
}

// rule: reading_of, writing_of
#[test]
fn an_audio_read_of_a_state_takes_twelve_or_thirteen_steps(rt: HostRuntime) {
    let made = Triple::<11>::make(rt.alloc(), &(), &[0; 11]);
    let (cell, mut writer, mut reader) = made.expect(&rt, "memory for a cell");
    assert_eq!(rt; read_counted(&cell, &(), &mut reader), (0, 0));
    assert_eq!(rt; publish_counted(&cell, &(), &mut writer, &[7; 11]), 1);
    assert_eq!(rt; publish_counted(&cell, &(), &mut writer, &[8; 11]), 2);
    assert_eq!(rt; read_counted(&cell, &(), &mut reader), (2, 8));
    assert_eq!(rt; read_counted(&cell, &(), &mut reader), (2, 8));
}
