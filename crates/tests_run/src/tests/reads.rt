//! Items that are read from the disk and from no second copy in memory: by how often the disk is read.

ghost use Rattle.std.specs.Prelude.{◌≡◌, false, IfSome};
ghost use Rattle.alt_shell.specs.Log.{talks};
ghost use Rattle.alt_shell.specs.Memory.{shell_state};

use super::over::{fresh, shell_over, words_of};
use alt_blocks::{BlockCache, Cached};
use alt_run::run;
use alt_shell::MemoryShell;
use std::alloc::Global;

static TABLE: &str =
    r#"CreateTable {"TableName":"Big","KeySchema":[{"AttributeName":"k","KeyType":"HASH"}],"AttributeDefinitions":[{"AttributeName":"k","AttributeType":"S"},{"AttributeName":"g","AttributeType":"S"}],"GlobalSecondaryIndexes":[{"IndexName":"Gax","KeySchema":[{"AttributeName":"g","KeyType":"HASH"}],"Projection":{"ProjectionType":"ALL"}}]}"#;

/// With which lines a run over the items ends.
#[derive(Clone, Copy, PartialEq, Eq)]
enum Ending {
    Nothing,
    Gets,
    Queries,
}

// A text of so many letters.
fn letters(alloc: Global, count: usize) -> Option<String> {
    let mut text = String::with_capacity(alloc, count).ok()?;
    for _ in 0..count {
        text.push('a').ok()?;
    }
    Some(text)
}

// The line that reads the item of this number, if any.
fn reading(alloc: Global, ending: Ending, number: u32) -> Option<String> {
    match ending {
        Ending::Nothing => Some(String::new(alloc)),
        Ending::Gets => format!(in alloc;
            "GetItem {{\"TableName\":\"Big\",\"Key\":{{\"k\":{{\"S\":\"{number:03}\"}}}}}}\n"
        ).ok(),
        Ending::Queries => format!(in alloc;
            "Query {{\"TableName\":\"Big\",\"IndexName\":\"Gax\",\"KeyConditionExpression\":\"g = :g\",\"ExpressionAttributeValues\":{{\":g\":{{\"S\":\"{number:03}\"}}}}}}\n"
        ).ok(),
    }
}

// Lines that put 300 items of 8,000 bytes, have them flushed, merged and read again, and end so.
fn lines_of(alloc: Global, ending: Ending) -> Option<String> {
    let mut text = String::new(alloc);
    let long = letters(alloc, 8_000)?;
    for number in 0..300u32 {
        let line = format!(in alloc;
            "PutItem {{\"TableName\":\"Big\",\"Item\":{{\"k\":{{\"S\":\"{number:03}\"}},\"g\":{{\"S\":\"{number:03}\"}},\"a\":{{\"S\":\"{long}\"}}}}}}\n"
        ).ok()?;
        text.push_str(line.as_str()).ok()?;
    }
    text.push_str("@flush\n@merge\n@reopen\n").ok()?;
    for number in 0..300u32 {
        text.push_str(reading(alloc, ending, number)?.as_str())
            .ok()?;
    }
    Some(text)
}

// A shell over a fresh store to which these lines come.
fn asked(alloc: Global, ending: Ending) -> Option<MemoryShell>
    ensures { IfSome result (λ s. talks (shell_state s).beside ≡ false) }
{
    let mut shell = shell_over(alloc, fresh(alloc)?, &[TABLE])?;
    shell.input(lines_of(alloc, ending)?.as_bytes()).ok()?;
    Some(shell)
}

// How often the disk behind a cache of 256 places is read in a run of such lines, all of which were answered well.
fn reads(alloc: Global, ending: Ending) -> Option<u64> {
    let mut shell = asked(alloc, ending)?;
    let words = words_of(alloc, &["replay", "65536", "64"])?;
    let mut cache = BlockCache::new(alloc, 256).ok()?;
    let mut cached = Cached::new(&mut shell, &mut cache);
    let status = run(alloc, &words, &mut cached);
    let refused = shell.said(None).starts_with(b"4") || status != 0;
    let (_, reads) = shell.disk().counts();
    if refused { None } else { Some(reads) }
}

// Whether gets, and so queries, read the disk at least 44 times more often than a run that ends with nothing does: 300 rows lie in 300 blocks.
fn read_more(alloc: Global) -> Option<bool> {
    let least = reads(alloc, Ending::Nothing)?.checked_add(44)?;
    Some(reads(alloc, Ending::Gets)? >= least && reads(alloc, Ending::Queries)? >= least)
}

#[test]
fn items_are_read_from_the_disk(rt: HostRuntime) {
    assert!(rt; read_more(rt.alloc()) == Some(true));
}
