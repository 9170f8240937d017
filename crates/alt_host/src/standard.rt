//! The standard streams that were closed as the program began.
//!
//! The system gives the lowest number that is free to the next file that is opened. Were that the number of a standard stream, what is said
//! or noted there would be written over a file of the store.

use alt_disk::DiskFault;
use std::alloc::Global;
use std::fs::File;
use std::io;
use std::os::fd::AsRawFd;
use std::rt::Runtime;

/// How many numbers the standard streams have, from 0 on.
const STREAMS: i32 = 3;

/// A folder that is always there. As a stream it can neither be read nor be written to.
const ROOT: &str = "/";

/// Takes the numbers of the standard streams that are closed, as long as what it answers is held. Reading and writing such a stream goes
/// on to fail.
pub(crate) fn held<R: Runtime<File = File>>(rt: &R, alloc: Global) -> Result<Vec<File>, DiskFault> {
    let Ok(mut held) = Vec::with_capacity(alloc, STREAMS as usize) else {
        return Err(DiskFault::NoMemory);
    };
    match take(rt, &mut held) {
        Ok(()) => Ok(held),
        Err(_) => Err(DiskFault::Failed),
    }
}

fn take<R: Runtime<File = File>>(rt: &R, held: &mut Vec<File>) -> io::Result<()> {
    for _ in 0..STREAMS {
        let file = File::open(rt, ROOT)?;
        if file.as_raw_fd() >= STREAMS {
            break;
        }
        held.push(file)?;
    }
    Ok(())
}
