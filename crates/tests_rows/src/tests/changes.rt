//! Changes of rows: what a write makes of them, and the change that turns one row into another.

use alt_base::NoMemory;
use alt_cells::{Batch, CellList, RowCells, RowChange, ShownRow};
use alt_fields::Bytes;
use std::alloc::Global;

/// Names of columns and values, both of one byte each; a `-` stands for none.
fn given(alloc: Global, text: &[u8]) -> Result<CellList, NoMemory> {
    let mut cells = CellList::new(alloc);
    for pair in text.chunks_exact(2) {
        let name = Bytes::new(alloc, &pair[..1])?;
        let value = if pair[1] == b'-' {
            None
        } else {
            Some(Bytes::new(alloc, &pair[1..])?)
        };
        cells.push(name, value)?;
    }
    Ok(cells)
}

fn change(alloc: Global, clear: bool, text: &[u8]) -> Result<RowChange, NoMemory> {
    Ok(RowChange {
        family: 1,
        key: Bytes::new(alloc, b"k")?,
        clear,
        cells: given(alloc, text)?,
    })
}

/// Columns as in `given`, none where the text is empty.
fn text_of(alloc: Global, shown: &Option<ShownRow>) -> Result<Vec<u8>, NoMemory> {
    let mut out = Vec::new(alloc);
    if let Some(row) = shown {
        for (name, value) in row.as_slice() {
            out.extend_from_slice(name.as_slice())?;
            out.extend_from_slice(value.as_slice())?;
        }
    }
    Ok(out)
}

fn row_of_text(alloc: Global, text: &[u8]) -> Result<Option<ShownRow>, NoMemory> {
    let row = RowCells::of_change(alloc, 1, &change(alloc, false, text)?)?;
    row.shown()
}

/// What a row showed, a later change of it, and what it shows then.
static WRITTEN: [(&[u8], bool, &[u8], &[u8]); 8] = [
    (b"", false, b"a1b2", b"a1b2"),
    (b"a1b2", false, b"b3c4", b"a1b3c4"),
    (b"a1b2", false, b"a-", b"b2"),
    (b"a1b2", false, b"b-a-", b""),
    (b"a1b2", true, b"c3", b"c3"),
    (b"a1b2", true, b"", b""),
    // Of one name twice the removal wins, and else the greater value.
    (b"a1b2", false, b"a5a-", b"b2"),
    (b"a1b2", false, b"c7b4c8b3", b"a1b4c8"),
];

fn is_written(alloc: Global, row: &(&[u8], bool, &[u8], &[u8])) -> bool {
    let (before, clear, cells, expected) = *row;
    let (Ok(first), Ok(later)) = (change(alloc, false, before), change(alloc, clear, cells)) else {
        return false;
    };
    let (Ok(mut row), Ok(written)) = (
        RowCells::of_change(alloc, 7, &first),
        RowCells::of_change(alloc, 8, &later),
    ) else {
        return false;
    };
    let Ok(()) = row.join(&written) else {
        return false;
    };
    let Ok(shown) = row.shown() else {
        return false;
    };
    let Ok(text) = text_of(alloc, &shown) else {
        return false;
    };
    text.as_slice() == expected
}

#[test]
fn a_later_change_is_shown(rt: HostRuntime) {
    for row in &WRITTEN {
        assert!(rt; is_written(rt.alloc(), row), "{row:?}");
    }
}

/// Two rows, and the change that turns the one into the other.
static BETWEEN: [(&[u8], &[u8], bool, &[u8]); 7] = [
    (b"", b"", false, b""),
    (b"", b"a1b2", true, b"a1b2"),
    (b"a1b2", b"", true, b""),
    (b"a1b2", b"a1b2", false, b""),
    (b"a1b2", b"a1b3", false, b"b3"),
    (b"a1b2", b"b2c3", false, b"c3a-"),
    (b"a1b2c3", b"a4c3d5", false, b"a4d5b-"),
];

fn lies_between(alloc: Global, row: &(&[u8], &[u8], bool, &[u8])) -> bool {
    let (old, new, clear, cells) = *row;
    let (Ok(old), Ok(new), Ok(key)) = (
        row_of_text(alloc, old),
        row_of_text(alloc, new),
        Bytes::new(alloc, b"k"),
    ) else {
        return false;
    };
    let Ok(found) = RowChange::between(alloc, 1, key, old.as_ref(), new.as_ref()) else {
        return false;
    };
    let Ok(expected) = given(alloc, cells) else {
        return false;
    };
    found.clear == clear && found.cells.as_slice() == expected.as_slice()
}

#[test]
fn a_change_lies_between_two_rows(rt: HostRuntime) {
    for row in &BETWEEN {
        assert!(rt; lies_between(rt.alloc(), row), "{row:?}");
    }
}

/// Names, and what a row with `b1d2f3` has there.
static ASKED: [(&[u8], Option<&[u8]>); 7] = [
    (b"a", None),
    (b"b", Some(b"1")),
    (b"c", None),
    (b"d", Some(b"2")),
    (b"dd", None),
    (b"f", Some(b"3")),
    (b"g", None),
];

fn is_found(alloc: Global, name: &[u8], expected: Option<&[u8]>) -> bool {
    let Ok(row) = row_of_text(alloc, b"b1d2f3") else {
        return false;
    };
    let Some(row) = row else {
        return false;
    };
    match (row.get(name), expected) {
        (Some(value), Some(expected)) => value.as_slice() == expected,
        (None, None) => true,
        _ => false,
    }
}

#[test]
fn a_row_has_its_columns(rt: HostRuntime) {
    for (name, value) in &ASKED {
        assert!(rt; is_found(rt.alloc(), name, *value), "{name:?}");
    }
}

fn is_built(alloc: Global) -> bool {
    let mut row = ShownRow::new(alloc);
    let (Ok(name), Ok(value)) = (Bytes::new(alloc, b""), Bytes::new(alloc, b"x")) else {
        return false;
    };
    let Ok(()) = row.push(name, value) else {
        return false;
    };
    row.as_slice().len() == 1 && row.get(b"").is_some()
}

#[test]
fn a_row_is_built_by_rising_names(rt: HostRuntime) {
    assert!(rt; is_built(rt.alloc()));
}

/// Families and keys, and whether a batch of the one change has them.
static ROWS: [(u32, &[u8], bool); 3] = [(1, b"k", true), (2, b"k", false), (1, b"l", false)];

fn has_as(alloc: Global, row: &(u32, &[u8], bool)) -> bool {
    let Ok(change) = change(alloc, true, b"a-") else {
        return false;
    };
    let mut batch = Batch::new(alloc);
    let Ok(()) = batch.add(change) else {
        return false;
    };
    batch.as_slice().len() == 1 && batch.has(row.0, row.1) == row.2
}

#[test]
fn a_batch_has_the_rows_that_were_added(rt: HostRuntime) {
    for row in &ROWS {
        assert!(rt; has_as(rt.alloc(), row), "{row:?}");
    }
}
