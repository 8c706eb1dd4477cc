//! Tests of which status a reader reads from a board, and of a registry and its handles.
ghost use Rattle.std.specs.Prelude.{◌≡◌};

use bio::{End, Status};
use board::{Blank, Board, Names, StatusSeat, WriterSeat};
use lock_state::{Fresh, Whose};
use std::alloc::Global;
use std::io::Print;
use std::marker::Brand;
use std::process::Abort;
use std::test::*;
use test_devices::is_same;

// Statuses to publish in this order: entries, sector and end, and whether the status may be
// published.
const ROWS: [(u64, u64, Option<End>, bool); 12] = [
    (0, 0, None, true),
    (3, 4, None, true),
    (2, 4, None, false),
    (3, 4, None, true),
    (1_048_577, 4, None, false),
    (3, 1_048_577, None, false),
    (1_048_576, 1_048_576, None, true),
    (1_048_576, 0, Some(End::Full), true),
    (1_048_576, 0, None, false),
    (1_048_576, 0, Some(End::Device), false),
    (1_048_575, 0, Some(End::Full), false),
    (1_048_576, 1_048_576, Some(End::Full), true),
];

// Publishes the status if the writer may publish it. Returns whether it was published.
fn publish_status<N: Names>(board: &Board<N>, writer: &mut WriterSeat<N>, status: Status) -> bool {
    let may_publish = writer.may_publish(status);
    if may_publish {
        board.publish(writer, status);
    }
    may_publish
}

// Tries to publish each row's status. Checks that a reader, and another that is made after it, both
// read the status that was published last.
fn rows_are_read<N: Names>(rt: &impl Print, blank: Blank) -> bool
    requires { blank ≡ N.board }
{
    let (board, mut writer) = blank.named::<N>();
    let mut reader = board.reader(&mut writer);
    let mut last = board.read(&mut reader);
    let mut are_read = is_same(
        rt,
        &last,
        &Status {
            entries: 0,
            sector: 0,
            end: None,
        },
        "at first",
    );
    for (entries, sector, end, may_publish) in ROWS {
        let status = Status {
            entries,
            sector,
            end,
        };
        if is_same(
            rt,
            &publish_status(&board, &mut writer, status),
            &may_publish,
            "is posted",
        ) && may_publish
        {
            last = status;
        }
        let found = board.read(&mut reader);
        let mut late = board.reader(&mut writer);
        board.agree(&mut writer, &mut reader);
        are_read = is_same(rt, &found, &last, "the reader") && are_read;
        are_read = is_same(rt, &board.read(&mut late), &last, "a late reader") && are_read;
    }
    are_read
}

// A reader, and the status that it read last.
#[derive(Drop)]
struct BoardReader<N: Names> {
    seat: StatusSeat<N>,
    last: Status,
}

// Makes `count` readers, and then publishes a status. Returns whether each of them reads it.
fn are_reading<N: Names>(rt: &impl Abort, alloc: Global, blank: Blank, count: usize) -> bool
    requires { blank ≡ N.board }
{
    let (board, mut writer) = blank.named::<N>();
    let last = writer.last();
    let mut readers = Vec::new(alloc);
    for _ in 0..count {
        let seat = board.reader(&mut writer);
        readers
            .push(BoardReader { seat, last })
            .expect(rt, "memory");
    }
    let status = Status {
        entries: 3,
        sector: 4,
        end: None,
    };
    publish_status(&board, &mut writer, status);
    for reader in readers.iter_mut() {
        reader.last = board.read(&mut reader.seat);
    }
    readers.iter().all(|reader| reader.last == status)
}

#[test]
fn a_reader_reads_what_was_published_last(rt: HostRuntime) -> Result<(), Fail> {
    let blank = Blank::new(rt.alloc())?;
    assert!(rt; rows_are_read::<Brand>(&rt, blank));
    Ok(())
}

#[test]
fn sixty_four_readers_read_the_same(rt: HostRuntime) -> Result<(), Fail> {
    let blank = Blank::new(rt.alloc())?;
    assert!(rt; are_reading::<Brand>(&rt, rt.alloc(), blank, 64));
    Ok(())
}

// Two handles begin and finish numbers in turn. The registry agrees with the first handle before it
// finishes.
fn are_held<W: Whose>(fresh: Fresh)
    requires { fresh ≡ W.table }
{
    let mut registry = fresh.named::<W>();
    let mut one = registry.enrol();
    let mut other = registry.enrol();
    registry.begin(&mut one, 7);
    registry.begin(&mut other, 9);
    registry.agree(&mut one);
    registry.finish(&mut one);
    registry.begin(&mut one, u64::MAX);
    registry.finish(&mut other);
}

#[test]
fn two_handles_take_and_let_go(rt: HostRuntime) -> Result<(), Fail> {
    are_held::<Brand>(Fresh::new(rt.alloc())?);
    Ok(())
}
