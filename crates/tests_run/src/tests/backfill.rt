//! Indexes that come and go: how many requests pass until one is whole, what writes do meanwhile, and what UpdateTable refuses.

use super::over::{behind, fresh, shown};
use alt_disk::MemoryDisk;
use std::alloc::Global;

static TABLE: &str =
    r#"CreateTable {"TableName":"Tab","KeySchema":[{"AttributeName":"k","KeyType":"HASH"}],"AttributeDefinitions":[{"AttributeName":"k","AttributeType":"S"}]}"#;

pub(super) const ADD: &str =
    r#"UpdateTable {"TableName":"Tab","AttributeDefinitions":[{"AttributeName":"g","AttributeType":"S"}],"GlobalSecondaryIndexUpdates":[{"Create":{"IndexName":"byg","KeySchema":[{"AttributeName":"g","KeyType":"HASH"}],"Projection":{"ProjectionType":"ALL"}}}]}"#;

static OTHER: &str =
    r#"UpdateTable {"TableName":"Tab","AttributeDefinitions":[{"AttributeName":"h","AttributeType":"S"}],"GlobalSecondaryIndexUpdates":[{"Create":{"IndexName":"byh","KeySchema":[{"AttributeName":"h","KeyType":"HASH"}],"Projection":{"ProjectionType":"ALL"}}}]}"#;

static DROP: &str =
    r#"UpdateTable {"TableName":"Tab","GlobalSecondaryIndexUpdates":[{"Delete":{"IndexName":"byg"}}]}"#;

pub(super) const COUNT: &str = r#"Scan {"TableName":"Tab","IndexName":"byg","Select":"COUNT"}"#;

pub(super) const DESCRIBE: &str = r#"DescribeTable {"TableName":"Tab"}"#;

// A batch of so many puts of items with a value of g, from a key on.
fn puts(alloc: Global, first: usize, count: usize) -> Option<String> {
    let mut text = String::from_str(alloc, r#"BatchWriteItem {"RequestItems":{"Tab":["#).ok()?;
    for number in 0..count {
        let key = first.checked_add(number)?;
        let comma = if number == 0 { "" } else { "," };
        let put = format!(in alloc;
            "{comma}{{\"PutRequest\":{{\"Item\":{{\"k\":{{\"S\":\"{key}\"}},\"g\":{{\"S\":\"x\"}}}}}}}}"
        ).ok()?;
        text.push_str(put.as_str()).ok()?;
    }
    text.push_str("]}}").ok()?;
    Some(text)
}

/// A disk with so many items in the table.
pub(super) fn filled(alloc: Global, count: usize) -> Option<MemoryDisk> {
    let mut lines = Vec::new(alloc);
    lines.push(String::from_str(alloc, TABLE).ok()?).ok()?;
    let mut first = 0;
    for _ in 0..count {
        if first >= count {
            break;
        }
        let rest = count - first;
        let size = if rest < 25 { rest } else { 25 };
        lines.push(puts(alloc, first, size)?).ok()?;
        first += size;
    }
    let mut texts = Vec::new(alloc);
    for line in &lines {
        texts.push(line.as_str()).ok()?;
    }
    behind(alloc, fresh(alloc)?, &texts)
}

// The statuses of the replies, a digit each: the first of 200 and of 400.
fn statuses(alloc: Global, said: &[u8]) -> Option<Vec<u8>> {
    let mut digits = Vec::new(alloc);
    let mut starts = true;
    for byte in said {
        if starts {
            digits.push(*byte).ok()?;
        }
        starts = *byte == b'\n';
    }
    Some(digits)
}

/// Whether these lines over a disk are answered with these statuses.
pub(super) fn answers(
    alloc: Global,
    disk: Option<MemoryDisk>,
    lines: &[&str],
    wanted: &[u8],
) -> Option<bool> {
    let said = shown(alloc, disk?, lines)?;
    let digits = statuses(alloc, said.as_slice())?;
    Some(digits.as_slice() == wanted)
}

/// Counts of items, and how many looks at the index are refused behind the UpdateTable.
static STEPS: [(usize, &[u8]); 8] = [
    (0, b"2222"),
    (1, b"2222"),
    (63, b"2222"),
    (64, b"2222"),
    (65, b"2422"),
    (128, b"2422"),
    (129, b"2442"),
    (130, b"2442"),
];

#[test]
fn an_index_is_built_in_steps_of_64(rt: HostRuntime) {
    let alloc = rt.alloc();
    for (count, wanted) in &STEPS {
        assert!(rt;
            answers(
                alloc,
                filled(alloc, *count),
                &[ADD, COUNT, COUNT, COUNT],
                *wanted
            ) == Some(true),
            "{}",
            *count
        );
    }
}

#[test]
fn a_whole_index_shows_all_items(rt: HostRuntime) {
    let alloc = rt.alloc();
    let said = filled(alloc, 130)
        .and_then(|disk| behind(alloc, disk, &[ADD, DESCRIBE, DESCRIBE]))
        .and_then(|disk| shown(alloc, disk, &[COUNT]));
    let wanted: &[u8] = b"200 {\"Count\":130,\"ScannedCount\":130}\n";
    assert!(rt; said.is_some_and(|said| said.as_slice() == wanted));
}

// Whether the index counts so many items, whole, behind these lines over 130 items.
fn counts(alloc: Global, lines: &[&str], wanted: &[u8]) -> Option<bool> {
    let disk = behind(alloc, filled(alloc, 130)?, lines)?;
    let disk = behind(alloc, disk, &[DESCRIBE, DESCRIBE, DESCRIBE])?;
    let said = shown(alloc, disk, &[COUNT])?;
    Some(said.as_slice() == wanted)
}

static GONE: &str = r#"DeleteItem {"TableName":"Tab","Key":{"k":{"S":"7"}}}"#;

static CHANGED: &str = r#"PutItem {"TableName":"Tab","Item":{"k":{"S":"9"},"g":{"S":"y"}}}"#;

static WITHOUT: &str = r#"PutItem {"TableName":"Tab","Item":{"k":{"S":"11"}}}"#;

static NEW: &str = r#"PutItem {"TableName":"Tab","Item":{"k":{"S":"new"},"g":{"S":"x"}}}"#;

#[test]
fn writes_go_on_while_an_index_is_built(rt: HostRuntime) {
    let alloc = rt.alloc();
    let same: &[u8] = b"200 {\"Count\":130,\"ScannedCount\":130}\n";
    let less: &[u8] = b"200 {\"Count\":129,\"ScannedCount\":129}\n";
    let more: &[u8] = b"200 {\"Count\":131,\"ScannedCount\":131}\n";
    assert!(rt; counts(alloc, &[ADD, GONE], less) == Some(true));
    assert!(rt; counts(alloc, &[ADD, CHANGED], same) == Some(true));
    assert!(rt; counts(alloc, &[ADD, WITHOUT], less) == Some(true));
    assert!(rt; counts(alloc, &[ADD, NEW], more) == Some(true));
    assert!(rt; counts(alloc, &[ADD, DESCRIBE, GONE, CHANGED], less) == Some(true));
    assert!(rt; counts(alloc, &[ADD, DESCRIBE, WITHOUT, NEW], same) == Some(true));
}

static NUMBER: &str = r#"PutItem {"TableName":"Tab","Item":{"k":{"S":"n"},"g":{"N":"1"}}}"#;

static EMPTY: &str = r#"PutItem {"TableName":"Tab","Item":{"k":{"S":"e"},"g":{"S":""}}}"#;

#[test]
fn items_of_another_kind_are_not_in_it(rt: HostRuntime) {
    let alloc = rt.alloc();
    let same: &[u8] = b"200 {\"Count\":130,\"ScannedCount\":130}\n";
    assert!(rt; counts(alloc, &[NUMBER, EMPTY, ADD], same) == Some(true));
    let disk = filled(alloc, 3).and_then(|disk| behind(alloc, disk, &[NUMBER]));
    assert!(rt; answers(alloc, disk, &[ADD, NUMBER, EMPTY, COUNT], b"2442") == Some(true));
}

#[test]
fn one_index_of_a_table_is_built_at_once(rt: HostRuntime) {
    let alloc = rt.alloc();
    assert!(rt;
        answers(
            alloc,
            filled(alloc, 130),
            &[ADD, OTHER, DROP, OTHER],
            b"2422"
        ) == Some(true)
    );
    assert!(rt;
        answers(
            alloc,
            filled(alloc, 130),
            &[ADD, DROP, ADD, COUNT, COUNT, COUNT],
            b"222442"
        ) == Some(true)
    );
    assert!(rt; answers(alloc, filled(alloc, 3), &[ADD, OTHER, COUNT], b"222") == Some(true));
}

#[test]
fn an_index_that_is_gone_is_none(rt: HostRuntime) {
    let alloc = rt.alloc();
    assert!(rt;
        answers(
            alloc,
            filled(alloc, 3),
            &[ADD, COUNT, DROP, COUNT, DROP],
            b"22244"
        ) == Some(true)
    );
}

static TWICE: &str =
    r#"UpdateTable {"TableName":"Tab","GlobalSecondaryIndexUpdates":[{"Delete":{"IndexName":"byg"}},{"Delete":{"IndexName":"byh"}}]}"#;

static BOTH: &str =
    r#"UpdateTable {"TableName":"Tab","GlobalSecondaryIndexUpdates":[{"Delete":{"IndexName":"byg"},"Update":{}}]}"#;

static NOTHING: &str = r#"UpdateTable {"TableName":"Tab","GlobalSecondaryIndexUpdates":[]}"#;

static KIND: &str =
    r#"UpdateTable {"TableName":"Tab","AttributeDefinitions":[{"AttributeName":"k","AttributeType":"N"}]}"#;

static UNUSED: &str =
    r#"UpdateTable {"TableName":"Tab","AttributeDefinitions":[{"AttributeName":"u","AttributeType":"S"}]}"#;

static GIVEN: &str =
    r#"UpdateTable {"TableName":"Tab","AttributeDefinitions":[{"AttributeName":"k","AttributeType":"S"}]}"#;

#[test]
fn changes_that_do_not_fit_are_refused(rt: HostRuntime) {
    let alloc = rt.alloc();
    assert!(rt;
        answers(
            alloc,
            filled(alloc, 3),
            &[ADD, ADD, TWICE, BOTH, NOTHING, KIND, UNUSED, GIVEN],
            b"24442442"
        ) == Some(true)
    );
}
