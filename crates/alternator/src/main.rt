//! Alternator: the interface of Amazon DynamoDB over a store in one folder. It answers sixteen operations, asked as lines or over HTTP.
#![tactic(auto)]

use alt_blocks::{BlockCache, Cached};
use alt_disk::DiskFault;
use alt_host::HostShell;
use alt_run::{command_of, port_of, run};
use std::alloc::{AllocError, Global};
use std::env;
use std::io::ErrorKind;
use std::process::ExitCode;

/// How many reads of files are kept in memory at most: where row files are read, each is a block.
const PLACES: usize = 256;

/// Takes the folder and the port off the front of the words, and ends with the status of the run of the others. Where the words are
/// wrong, the folder isn't touched.
fn main(rt: HostRuntime) -> ExitCode {
    let alloc = rt.alloc();
    let own: Result<_, _> = rt.clone();
    let (Ok(words), Ok(own)) = (words_of(&rt, alloc), own) else {
        return noted(&rt, "alternator: memory\n", 5);
    };
    let Some(words) = words else {
        return noted(&rt, "alternator: words\n", 1);
    };
    let (Some(port), [folder, _, rest @ ..]) = (port_of(&words), words.as_slice()) else {
        return noted(&rt, "alternator: words\n", 1);
    };
    if command_of(rest).is_none() {
        return noted(&rt, "alternator: words\n", 1);
    }
    let Ok(mut cache) = BlockCache::new(alloc, PLACES) else {
        return noted(&rt, "alternator: memory\n", 5);
    };
    match HostShell::new(own, alloc, folder.as_str(), port) {
        Ok(mut shell) => {
            let mut cached = Cached::new(&mut shell, &mut cache);
            ExitCode::from(run(alloc, rest, &mut cached))
        }
        Err(DiskFault::Failed) => noted(&rt, "alternator: device\n", 4),
        Err(DiskFault::NoMemory) => noted(&rt, "alternator: memory\n", 5),
    }
}

/// Tells the operator why the program ends before its run.
fn noted(rt: &HostRuntime, note: &str, status: u8) -> ExitCode {
    let _ = rt.eprint(note);
    ExitCode::from(status)
}

/// The words behind the name of the program, `None` where one is no text in UTF-8.
fn words_of(rt: &HostRuntime, alloc: Global) -> Result<Option<Vec<String>>, AllocError> {
    let mut words = Vec::new(alloc);
    let args = match env::args(rt) {
        Ok(args) => args,
        Err(fault) if fault.kind() == ErrorKind::OutOfMemory => return Err(AllocError),
        Err(_) => return Ok(None),
    };
    for word in args.skip(1) {
        words.push(word)?;
    }
    Ok(Some(words))
}
