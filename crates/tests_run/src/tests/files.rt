//! The files that merges leave, by the last version.

use super::over::{ended, fresh, replayed, shell_over};
use alt_disk::Disk;
use alt_manifest::Manifest;
use alt_shell::MemoryShell;
use std::alloc::Global;

// The most files that a family has.
fn most_files(alloc: Global, shell: &mut MemoryShell) -> Option<usize> {
    let manifest = Manifest::recover(alloc, shell, 1).ok()?;
    let mut most = 0;
    for family in manifest.current().families.as_slice() {
        most = most.max(family.files.as_slice().len());
    }
    Some(most)
}

// The most files that a family has behind a trial.
fn most_behind_a_trial(alloc: Global) -> Option<usize> {
    let mut shell = shell_over(alloc, fresh(alloc)?, &[])?;
    match ended(alloc, &["trial", "7", "20000", "65536", "4"], &mut shell)? {
        0 => most_files(alloc, &mut shell),
        _ => None,
    }
}

#[test]
fn a_trial_leaves_at_most_eight_files_of_each_family(rt: HostRuntime) {
    let Some(most) = most_behind_a_trial(rt.alloc()) else {
        assert!(rt; false);
        return;
    };
    assert!(rt; most <= 8, "{most}");
}

const TABLE: &str =
    r#"CreateTable {"TableName":"Tab","KeySchema":[{"AttributeName":"k","KeyType":"HASH"}],"AttributeDefinitions":[{"AttributeName":"k","AttributeType":"S"}]}"#;

const PUT: &str = r#"PutItem {"TableName":"Tab","Item":{"k":{"S":"a"}}}"#;

const PUT_TWO: &str = r#"PutItem {"TableName":"Tab","Item":{"k":{"S":"a"},"v":{"S":"two"}}}"#;

const DELETE: &str = r#"DeleteItem {"TableName":"Tab","Key":{"k":{"S":"a"}}}"#;

const GET: &str = r#"GetItem {"TableName":"Tab","Key":{"k":{"S":"a"}}}"#;

static LINES: [&str; 9] = [
    TABLE, PUT, "@flush", DELETE, "@flush", "@merge", "@reopen", GET, "@step",
];

/// How many bytes a file without rows has.
const EMPTY: u64 = 64;

// Whether the table whose one item was deleted has no file, or one without rows, once its files are merged.
fn has_no_rows(alloc: Global) -> Option<bool> {
    let mut shell = replayed(alloc, fresh(alloc)?, &LINES)?;
    let told = shell
        .said(None)
        .ends_with(b"200 {}\nok\n200 {}\nok\nok\nok\n200 {}\nok\n");
    let manifest = Manifest::recover(alloc, &mut shell, 1).ok()?;
    for family in manifest.current().families.as_slice() {
        for file in family.files.as_slice() {
            if family.family == 1 && shell.size(*file).ok()? != EMPTY {
                return Some(false);
            }
        }
    }
    Some(told)
}

#[test]
fn a_merge_leaves_no_rows_of_a_table_without_items(rt: HostRuntime) {
    assert!(rt; has_no_rows(rt.alloc()) == Some(true));
}

static AGAIN: [&str; 11] = [
    TABLE, PUT, "@flush", DELETE, "@flush", "@merge", PUT_TWO, "@flush", "@merge", "@reopen", GET,
];

// Whether an item that was put again, once a merge had taken its tombstone away, is there.
fn comes_again(alloc: Global) -> Option<bool> {
    let shell = replayed(alloc, fresh(alloc)?, &AGAIN)?;
    let wanted = b"\nok\n200 {\"Item\":{\"k\":{\"S\":\"a\"},\"v\":{\"S\":\"two\"}}}\n";
    Some(shell.said(None).ends_with(wanted))
}

#[test]
fn an_item_that_was_put_again_behind_a_merge_is_there(rt: HostRuntime) {
    assert!(rt; comes_again(rt.alloc()) == Some(true));
}
