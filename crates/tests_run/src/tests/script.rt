//! The lines of the tests of stops, and what a store shows behind each of their writes.

use super::over::{behind, fresh, shown};
use alt_disk::{Disk, MemoryDisk};
use std::alloc::Global;

/// A table with a global index of its keys alone, and with a stream of what is put.
pub(super) const CREATE: &str =
    r#"CreateTable {"TableName":"Rng","KeySchema":[{"AttributeName":"k","KeyType":"HASH"},{"AttributeName":"r","KeyType":"RANGE"}],"AttributeDefinitions":[{"AttributeName":"k","AttributeType":"S"},{"AttributeName":"r","AttributeType":"N"},{"AttributeName":"g","AttributeType":"S"}],"GlobalSecondaryIndexes":[{"IndexName":"Gix","KeySchema":[{"AttributeName":"g","KeyType":"HASH"}],"Projection":{"ProjectionType":"KEYS_ONLY"}}],"StreamSpecification":{"StreamEnabled":true,"StreamViewType":"NEW_IMAGE"}}"#;

pub(super) const PUT_1X: &str =
    r#"PutItem {"TableName":"Rng","Item":{"k":{"S":"a"},"r":{"N":"1"},"g":{"S":"x"}}}"#;

pub(super) const PUT_1Y: &str =
    r#"PutItem {"TableName":"Rng","Item":{"k":{"S":"a"},"r":{"N":"1"},"g":{"S":"y"}}}"#;

pub(super) const PUT_2: &str =
    r#"PutItem {"TableName":"Rng","Item":{"k":{"S":"a"},"r":{"N":"2"},"g":{"S":"x"}}}"#;

pub(super) const PUT_3: &str =
    r#"PutItem {"TableName":"Rng","Item":{"k":{"S":"a"},"r":{"N":"3"},"g":{"S":"x"}}}"#;

pub(super) const PUT_4: &str =
    r#"PutItem {"TableName":"Rng","Item":{"k":{"S":"a"},"r":{"N":"4"},"g":{"S":"z"}}}"#;

pub(super) const DELETE_1: &str =
    r#"DeleteItem {"TableName":"Rng","Key":{"k":{"S":"a"},"r":{"N":"1"}}}"#;

pub(super) const DELETE_2: &str =
    r#"DeleteItem {"TableName":"Rng","Key":{"k":{"S":"a"},"r":{"N":"2"}}}"#;

/// An attribute for time to live, and items with a time that is over.
pub(super) const TIME: &str =
    r#"UpdateTimeToLive {"TableName":"Rng","TimeToLiveSpecification":{"AttributeName":"x","Enabled":true}}"#;

pub(super) const OVER_1: &str =
    r#"PutItem {"TableName":"Rng","Item":{"k":{"S":"a"},"r":{"N":"1"},"g":{"S":"x"},"x":{"N":"1699999999"}}}"#;

pub(super) const OVER_3: &str =
    r#"PutItem {"TableName":"Rng","Item":{"k":{"S":"a"},"r":{"N":"3"},"g":{"S":"x"},"x":{"N":"1699999999"}}}"#;

pub(super) const EXPIRE: &str = "ExpireItems {}";

pub(super) const BATCH: &str =
    r#"BatchWriteItem {"RequestItems":{"Rng":[{"PutRequest":{"Item":{"k":{"S":"a"},"r":{"N":"2"},"g":{"S":"x"}}}},{"PutRequest":{"Item":{"k":{"S":"a"},"r":{"N":"3"},"g":{"S":"x"}}}},{"DeleteRequest":{"Key":{"k":{"S":"a"},"r":{"N":"1"}}}}]}}"#;

/// Lines, those of them that write, and how many of these there are behind so many lines. They run over a fresh store, or over kept files,
/// which are those behind some lines before.
pub(super) struct Script<'a> {
    pub(super) kept: &'a [(u32, &'a [u8])],
    pub(super) before: &'a [&'a str],
    pub(super) lines: &'a [&'a str],
    pub(super) writes: &'a [&'a str],
    pub(super) behind: &'a [usize],
}

/// Each way of writing, flushes, and a merge of all.
pub(super) static EACH: Script<'static> = Script {
    kept: &[],
    before: &[],
    lines: &[
        CREATE, PUT_1X, PUT_1Y, BATCH, "@flush", DELETE_2, "@flush", "@merge", PUT_4,
    ],
    writes: &[CREATE, PUT_1X, PUT_1Y, BATCH, DELETE_2, PUT_4],
    behind: &[0, 1, 2, 3, 4, 4, 5, 5, 5, 6],
};

/// Lines between which merges are under way, one family after another: writes, flushes, a reopening, which gives one up, and steps.
pub(super) static UNDER_WAY: Script<'static> = Script {
    kept: &[],
    before: &[],
    lines: &[
        CREATE, PUT_1X, "@flush", PUT_1Y, "@flush", PUT_2, "@flush", "@step", DELETE_1, "@step",
        "@reopen", "@step", "@step", PUT_3, "@step", "@step", DELETE_2, "@flush", "@step", "@step",
        "@step", PUT_4, "@merge",
    ],
    writes: &[
        CREATE, PUT_1X, PUT_1Y, PUT_2, DELETE_1, PUT_3, DELETE_2, PUT_4,
    ],
    behind: &[
        0, 1, 2, 2, 3, 3, 4, 4, 4, 5, 5, 5, 5, 5, 6, 6, 6, 7, 7, 7, 7, 7, 8, 8,
    ],
};

/// Items whose time is over, from memory and from a file, and one that stays.
pub(super) static EXPIRING: Script<'static> = Script {
    kept: &[],
    before: &[],
    lines: &[
        CREATE, TIME, OVER_1, PUT_2, "@flush", OVER_3, EXPIRE, "@flush", "@merge", PUT_4,
    ],
    writes: &[CREATE, TIME, OVER_1, PUT_2, OVER_3, EXPIRE, PUT_4],
    behind: &[0, 1, 2, 3, 4, 4, 5, 6, 6, 6, 7],
};

/// The disk on which a script runs.
pub(super) fn begun(alloc: Global, script: &Script) -> Option<MemoryDisk> {
    if script.kept.is_empty() {
        return fresh(alloc);
    }
    let mut disk = MemoryDisk::new(alloc);
    for (file, bytes) in script.kept {
        disk.write_at(*file, 0, bytes).ok()?;
        disk.sync(*file).ok()?;
    }
    let (now, _) = disk.counts();
    disk.stopped(now, &[]).ok()
}

/// The table, its index and all records of its stream are read, and its time to live is.
static SHOW: [&str; 4] = [
    r#"Scan {"TableName":"Rng"}"#,
    r#"Scan {"TableName":"Rng","IndexName":"Gix"}"#,
    r#"GetRecords {"ShardIterator":"arn:aws:dynamodb:local:000000000000:table/Rng/stream/000000000000000000001|000000000000000000002"}"#,
    r#"DescribeTimeToLive {"TableName":"Rng"}"#,
];

/// What the table, its index and its stream show of the store on a disk.
pub(super) fn view(alloc: Global, disk: MemoryDisk) -> Option<Vec<u8>> {
    shown(alloc, disk, &SHOW)
}

/// What they show behind the first so many writes of a script, none of which is disturbed, and then behind these.
pub(super) fn view_behind(
    alloc: Global,
    script: &Script,
    count: usize,
    more: &[&str],
) -> Option<Vec<u8>> {
    let disk = behind(alloc, fresh(alloc)?, script.before)?;
    let disk = behind(alloc, disk, script.writes.get(..count)?)?;
    view(alloc, behind(alloc, disk, more)?)
}

/// What they show behind each count of writes of a script.
pub(super) fn views(alloc: Global, script: &Script, more: &[&str]) -> Option<Vec<Vec<u8>>> {
    let mut views = Vec::new(alloc);
    for count in 0..=script.writes.len() {
        views.push(view_behind(alloc, script, count, more)?).ok()?;
    }
    Some(views)
}

/// The bytes by which a stop picks what it leaves: the first of everything, all of it, and something between.
pub(super) fn choices(alloc: Global) -> Option<Vec<Vec<u8>>> {
    let mut counting = Vec::new(alloc);
    for i in 0..4096u32 {
        counting.push((i % 256) as u8).ok()?;
    }
    let mut choices = Vec::new(alloc);
    choices.push(Vec::new(alloc)).ok()?;
    choices.push([1u8; 4096].to_vec(alloc).ok()?).ok()?;
    choices.push(counting).ok()?;
    Some(choices)
}
