//! The folder and its files: their names, their bytes, and what makes them last.
//!
//! File N is `NNNNNNNN.alt`, its number in eight hexadecimal digits. Other names are passed over. A file is opened once and kept
//! open. The folder itself is held under the system's lock while it is open, so that no second process writes in it.

ghost use Rattle.std.specs.Prelude.{◌≤◌, length, IfOk};

use alt_disk::DiskFault;
use std::alloc::{AllocError, Global};
use std::fs::{self, File, OpenOptions};
use std::io::{self, ErrorKind};
use std::os::unix::fs::FileExt;
use std::rt::Runtime;

/// How many files are kept open at a time.
const MOST_OPEN: usize = 64;

/// What a file's name ends with, behind its eight digits.
const ENDING: &str = ".alt";

/// The digits of a file's name.
const DIGITS: [char; 16] = [
    '0', '1', '2', '3', '4', '5', '6', '7', '8', '9', 'a', 'b', 'c', 'd', 'e', 'f',
];

/// A folder in hand.
#[derive(Drop)]
pub(crate) struct Folder {
    /// The folder itself, open and locked.
    handle: File,
    /// Its path, with a slash behind it.
    folder: String,
    /// The path of the file that was named last. It has room for any file's from the start.
    path: String,
    /// Files that are open, with their numbers.
    open: Vec<(u32, File)>,
    /// Whether a file may have come since the folder was synced last. At first one may: the process before may have made it.
    came: bool,
    /// Whether a sync failed. The system may then count as written what it lost, so none may make good for it.
    lost: bool,
}

impl Folder {
    /// Opens a folder and locks it. One that isn't there is made, and made to last.
    pub(crate) fn open<R: Runtime<File = File>>(
        rt: &R,
        alloc: Global,
        path: &str,
    ) -> Result<Folder, DiskFault> {
        let Ok(folder) = format!(in alloc; "{path}/") else {
            return Err(DiskFault::NoMemory);
        };
        let room = folder.len().saturating_add(16);
        let Ok(file_path) = String::with_capacity(alloc, room) else {
            return Err(DiskFault::NoMemory);
        };
        let Ok(open) = Vec::with_capacity(alloc, MOST_OPEN) else {
            return Err(DiskFault::NoMemory);
        };
        let Ok(handle) = handle_of(rt, path) else {
            return Err(DiskFault::Failed);
        };
        Ok(Folder {
            handle,
            folder,
            path: file_path,
            open,
            came: true,
            lost: false,
        })
    }

    /// Fills the emptied list with the numbers of the files there, in no order.
    pub(crate) fn names<R: Runtime<File = File>>(
        &self,
        rt: &R,
        list: &mut Vec<u32>,
    ) -> io::Result<()> {
        list.clear();
        for entry in fs::read_dir(rt, self.folder.as_str())? {
            match entry {
                Ok(entry) => {
                    if let Some(number) = number_of(entry.file_name()) {
                        list.push(number)?;
                    }
                }
                // A name that is no text is none of ours.
                Err(e) if e.kind() == ErrorKind::InvalidFilename => {}
                Err(e) => return Err(e),
            }
        }
        Ok(())
    }

    /// The size of a file in bytes, 0 where it is missing.
    pub(crate) fn size<R: Runtime<File = File>>(&mut self, rt: &R, number: u32) -> io::Result<u64> {
        match self.file(rt, number)? {
            Some(file) => Ok(file.metadata()?.len()),
            None => Ok(0),
        }
    }

    /// Gives the bytes from a place on, as many as stand there up to the buffer.
    pub(crate) fn read<R: Runtime<File = File>>(
        &mut self,
        rt: &R,
        number: u32,
        at: u64,
        buf: &mut [u8],
    ) -> io::Result<usize>
        ensures bound { IfOk result (λ n. n ≤ length buf.old) }
    {
        match self.file(rt, number)? {
            Some(file) => read_all(file, at, buf),
            None => Ok(0),
        }
    }

    /// Writes at a place, and makes a missing file.
    pub(crate) fn write<R: Runtime<File = File>>(
        &mut self,
        rt: &R,
        number: u32,
        at: u64,
        bytes: &[u8],
    ) -> io::Result<()> {
        if self.file(rt, number)?.is_none() {
            self.make(rt, number)?;
        }
        match self.file(rt, number)? {
            Some(file) => file.write_all_at(bytes, at),
            None => Err(io::Error::from(ErrorKind::NotFound)),
        }
    }

    /// Makes the bytes of a file last, and that it is there.
    pub(crate) fn sync<R: Runtime<File = File>>(&mut self, rt: &R, number: u32) -> io::Result<()> {
        if self.lost {
            return Err(io::Error::from(ErrorKind::Other));
        }
        self.lost = true;
        if let Some(file) = self.file(rt, number)? {
            file.sync_data()?;
            if self.came {
                self.handle.sync_all()?;
                self.came = false;
            }
        }
        self.lost = false;
        Ok(())
    }

    /// Removes a file, and makes that last. Nothing is done to a missing one.
    pub(crate) fn remove<R: Runtime<File = File>>(
        &mut self,
        rt: &R,
        number: u32,
    ) -> io::Result<()> {
        self.open.retain(|one| one.0 != number);
        self.name(number)?;
        match fs::remove_file(rt, self.path.as_str()) {
            Ok(()) => self.handle.sync_all(),
            Err(e) if e.kind() == ErrorKind::NotFound => Ok(()),
            Err(e) => Err(e),
        }
    }

    /// A file, open for reading and writing, where it is there.
    fn file<R: Runtime<File = File>>(&mut self, rt: &R, number: u32) -> io::Result<Option<&File>> {
        if !self.open.iter().any(|one| one.0 == number) {
            self.name(number)?;
            match OpenOptions::new()
                .read(true)
                .write(true)
                .open(rt, self.path.as_str())
            {
                Ok(file) => self.keep(number, file)?,
                Err(e) if e.kind() == ErrorKind::NotFound => return Ok(None),
                Err(e) => return Err(e),
            }
        }
        Ok(
            self.open
                .iter()
                .find(|one| one.0 == number)
                .map(|one| &one.1),
        )
    }

    /// Makes a file that isn't there.
    fn make<R: Runtime<File = File>>(&mut self, rt: &R, number: u32) -> io::Result<()> {
        self.name(number)?;
        let file = OpenOptions::new()
            .read(true)
            .write(true)
            .create_new(true)
            .open(rt, self.path.as_str())?;
        self.came = true;
        self.keep(number, file)
    }

    /// Keeps a file open, in the stead of the one that was opened first where there are too many.
    fn keep(&mut self, number: u32, file: File) -> io::Result<()> {
        if self.open.len() >= MOST_OPEN {
            self.open.remove(0);
        }
        self.open.push((number, file))?;
        Ok(())
    }

    /// Puts the name of a file behind the folder's path, in the room that is there.
    fn name(&mut self, number: u32) -> Result<(), AllocError> {
        self.path.clear();
        self.path.push_str(self.folder.as_str())?;
        for place in 0..8u32 {
            self.path
                .push(DIGITS[((number >> (28 - 4 * place)) & 15) as usize])?;
        }
        self.path.push_str(ENDING)
    }
}

/// The folder itself, open and locked. One that isn't there is made, with the folder that it lies in synced.
fn handle_of<R: Runtime<File = File>>(rt: &R, path: &str) -> io::Result<File> {
    let handle = match File::open(rt, path) {
        Ok(handle) => handle,
        Err(e) if e.kind() == ErrorKind::NotFound => made(rt, path)?,
        Err(e) => return Err(e),
    };
    match handle.try_lock() {
        Ok(()) => Ok(handle),
        Err(e) => Err(io::Error::from(e)),
    }
}

/// Makes a folder, and makes that last.
fn made<R: Runtime<File = File>>(rt: &R, path: &str) -> io::Result<File> {
    fs::create_dir(rt, path)?;
    File::open(rt, above(path))?.sync_all()?;
    File::open(rt, path)
}

/// The path of the folder in which a path lies.
fn above(path: &str) -> &str {
    match path.trim_end_matches('/').rsplit_once('/') {
        Some(("", _)) => "/",
        Some((front, _)) => front,
        None => ".",
    }
}

/// The number in the name of a file, None where it is none of ours.
fn number_of(name: &str) -> Option<u32> {
    let digits = name.strip_suffix(ENDING)?;
    if digits.len() != 8
        || !digits
            .bytes()
            .all(|b| matches!(b, b'0'..=b'9' | b'a'..=b'f'))
    {
        return None;
    }
    u32::from_str_radix(digits, 16).ok()
}

/// Fills the buffer from a place of a file, as far as bytes stand there.
fn read_all(file: &File, at: u64, buf: &mut [u8]) -> io::Result<usize>
    ensures bound { IfOk result (λ n. n ≤ length buf.old) }
{
    let mut done = 0;
    for _ in 0..u64::MAX {
        if done >= buf.len() {
            break;
        }
        match file.read_at(&mut buf[done..], at.wrapping_add(done as u64)) {
            Ok(0) => break,
            Ok(count) => done += count,
            Err(e) if e.kind() == ErrorKind::Interrupted => {}
            Err(e) => return Err(e),
        }
    }
    Ok(done)
}
