//! Which cell stays, what a row shows, and the bytes of docs/formats/rows.md.

use alt_base::NoMemory;
use alt_cells::{Cell, CellMap, RowCells, row_bytes, row_of};
use alt_fields::{Bytes, BytesFault};
use std::alloc::Global;

/// A column, the number of a write, and the value that it gave, or none where it removed it.
type GivenCell = (&'static [u8], u64, Option<&'static [u8]>);

fn cell(alloc: Global, at: u64, value: Option<&[u8]>) -> Result<Cell, NoMemory> {
    let value = match value {
        Some(bytes) => Some(Bytes::new(alloc, bytes)?),
        None => None,
    };
    Ok(Cell { at, value })
}

/// A row of cells, joined one by one.
fn row(alloc: Global, gone: Option<u64>, cells: &[GivenCell]) -> Result<RowCells, NoMemory> {
    let mut row = RowCells {
        gone,
        cells: CellMap::new(alloc),
    };
    for (name, at, value) in cells {
        let name = Bytes::new(alloc, name)?;
        let cells = CellMap::one(alloc, name, cell(alloc, *at, *value)?)?;
        row.join(&RowCells { gone: None, cells })?;
    }
    Ok(row)
}

/// The columns that a row shows and their values, each before a comma; nothing where it isn't shown.
fn shows(alloc: Global, row: &RowCells, expected: &[u8]) -> bool {
    let mut out = Vec::new(alloc);
    let Ok(shown) = row.shown() else {
        return false;
    };
    let Some(shown) = shown else {
        return expected.is_empty();
    };
    for (name, value) in shown.as_slice() {
        let (Ok(()), Ok(()), Ok(())) = (
            out.extend_from_slice(name.as_slice()),
            out.extend_from_slice(value.as_slice()),
            out.extend_from_slice(b","),
        ) else {
            return false;
        };
    }
    out.as_slice() == expected
}

/// Each wins over those behind it, and not over itself.
static FALLING: [(u64, Option<&[u8]>); 5] = [
    (8, Some(b"a")),
    (7, None),
    (7, Some(b"b")),
    (7, Some(b"ab")),
    (7, Some(b"a")),
];

fn wins_as(alloc: Global, place: usize, other_place: usize) -> bool {
    if place >= FALLING.len() || other_place >= FALLING.len() {
        return false;
    }
    let (one, other) = (FALLING[place], FALLING[other_place]);
    let (Ok(one), Ok(other)) = (cell(alloc, one.0, one.1), cell(alloc, other.0, other.1)) else {
        return false;
    };
    one.wins(&other) == (place < other_place)
}

#[test]
fn the_later_cell_stays_then_the_tombstone_then_the_greater_bytes(rt: HostRuntime) {
    for place in 0..5 {
        for other_place in 0..5 {
            assert!(rt;
                wins_as(rt.alloc(), place, other_place),
                "{place} and {other_place}"
            );
        }
    }
}

static CELLS: [GivenCell; 5] = [
    (b"b", 6, Some(b"old")),
    (b"c", 9, None),
    (b"a", 7, Some(b"x")),
    (b"b", 8, Some(b"y")),
    (b"d", 5, Some(b"z")),
];

/// Row tombstones over these cells, and what the row shows.
static SHOWN: [(Option<u64>, &[u8]); 5] = [
    (None, b"ax,by,dz,"),
    (Some(5), b"ax,by,dz,"),
    (Some(7), b"ax,by,"),
    (Some(8), b"by,"),
    (Some(9), b""),
];

fn shows_behind(alloc: Global, gone: Option<u64>, expected: &[u8]) -> bool {
    let Ok(row) = row(alloc, gone, &CELLS) else {
        return false;
    };
    shows(alloc, &row, expected)
}

#[test]
fn a_row_shows_what_no_tombstone_hides(rt: HostRuntime) {
    for (gone, expected) in &SHOWN {
        assert!(rt; shows_behind(rt.alloc(), *gone, expected), "{gone:?}");
    }
}

static LEFT: [GivenCell; 2] = [(b"a", 3, Some(b"x")), (b"c", 4, Some(b"z"))];

static RIGHT: [GivenCell; 2] = [(b"b", 2, Some(b"y")), (b"c", 5, None)];

/// Row tombstones on either side, the joined one, and what the joined row shows.
static JOINS: [(Option<u64>, Option<u64>, Option<u64>, &[u8]); 4] = [
    (None, None, None, b"ax,by,"),
    (None, Some(3), Some(3), b"ax,"),
    (Some(2), Some(1), Some(2), b"ax,by,"),
    (Some(4), Some(4), Some(4), b""),
];

fn joins_either_way(
    alloc: Global,
    row_of_joins: &(Option<u64>, Option<u64>, Option<u64>, &[u8]),
) -> bool {
    let (left, right, gone, expected) = *row_of_joins;
    let (Ok(mut one), Ok(mut other)) = (row(alloc, left, &LEFT), row(alloc, right, &RIGHT)) else {
        return false;
    };
    let Ok(kept) = one.copy() else {
        return false;
    };
    let (Ok(()), Ok(())) = (one.join(&other), other.join(&kept)) else {
        return false;
    };
    one.gone == gone
        && other.gone == gone
        && shows(alloc, &one, expected)
        && shows(alloc, &other, expected)
}

#[test]
fn rows_are_joined_either_way(rt: HostRuntime) {
    for row in &JOINS {
        assert!(rt; joins_either_way(rt.alloc(), row), "{row:?}");
    }
}

/// Rows and their bytes: that of the format's page, one without a tombstone, and the empty one.
static WRITTEN: [(Option<u64>, &[GivenCell], &[u8]); 3] = [
    (
        Some(3),
        &[(b"b", 258, None), (b"a", 7, Some(b"xy"))],
        b"\x01\0\0\0\0\0\0\0\x03\0\0\0\0\0\0\0\x02\
          \0\0\0\0\0\0\0\x01a\0\0\0\0\0\0\0\x07\x01\0\0\0\0\0\0\0\x02xy\
          \0\0\0\0\0\0\0\x01b\0\0\0\0\0\0\x01\x02\0",
    ),
    (
        None,
        &[(b"", 1, Some(b""))],
        b"\0\0\0\0\0\0\0\0\x01\0\0\0\0\0\0\0\0\0\0\0\0\0\0\0\x01\x01\0\0\0\0\0\0\0\0",
    ),
    (None, &[], b"\0\0\0\0\0\0\0\0\0"),
];

fn is_written(alloc: Global, row_of_table: &(Option<u64>, &[GivenCell], &[u8])) -> bool {
    let (gone, cells, expected) = *row_of_table;
    let mut out = Vec::new(alloc);
    let Ok(row) = row(alloc, gone, cells) else {
        return false;
    };
    let Ok(()) = row_bytes(&row, &mut out) else {
        return false;
    };
    out.as_slice() == expected && is_read_again(alloc, expected)
}

fn is_read_again(alloc: Global, bytes: &[u8]) -> bool {
    let mut out = Vec::new(alloc);
    let Ok(row) = row_of(alloc, bytes) else {
        return false;
    };
    let Ok(()) = row_bytes(&row, &mut out) else {
        return false;
    };
    out.as_slice() == bytes
}

#[test]
fn rows_have_these_bytes_and_are_read_again(rt: HostRuntime) {
    for row in &WRITTEN {
        assert!(rt; is_written(rt.alloc(), row), "{row:?}");
    }
}

/// Bytes that are no row's, and the place where they stop being so.
static STOPS: [(&[u8], usize); 12] = [
    (b"", 0),
    (b"\x02\0\0\0\0\0\0\0\0", 0),
    (b"\x01\0\0", 3),
    (b"\0\0\0\0\0\0\0\0", 8),
    (b"\0\0\0\0\0\0\0\0\0!", 9),
    (b"\0\0\0\0\0\0\0\0\x01", 9),
    (b"\0\0\0\0\0\0\0\0\x01\0\0\0\0\0\0\0\x01", 17),
    (b"\0\0\0\0\0\0\0\0\x01\0\0\0\0\0\0\0\x01a\0\0", 20),
    (
        b"\0\0\0\0\0\0\0\0\x01\0\0\0\0\0\0\0\x01a\0\0\0\0\0\0\0\x07\x02",
        26,
    ),
    (
        b"\0\0\0\0\0\0\0\0\x01\0\0\0\0\0\0\0\x01a\0\0\0\0\0\0\0\x07\x01\0\0",
        29,
    ),
    // A name twice stops where it begins.
    (
        b"\0\0\0\0\0\0\0\0\x02\0\0\0\0\0\0\0\x01a\0\0\0\0\0\0\0\x07\0\0\0\0\0\0\0\0\x01a\0\0\0\0\0\0\0\x08\0",
        27,
    ),
    // A length that no bytes can have is the end's.
    (b"\0\0\0\0\0\0\0\0\x01\xff\xff\xff\xff\xff\xff\xff\xff", 17),
];

fn stops_at(alloc: Global, bytes: &[u8], expected: usize) -> bool {
    match row_of(alloc, bytes) {
        Err(BytesFault::Bad { at }) => at == expected,
        _ => false,
    }
}

#[test]
fn other_bytes_are_no_row(rt: HostRuntime) {
    for (bytes, at) in &STOPS {
        assert!(rt; stops_at(rt.alloc(), bytes, *at), "{bytes:?}");
    }
}
