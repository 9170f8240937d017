//! A shell behind a cache of the reads of its files. Its streams, its connections and its clock are the shell's own.

use crate::cached::Cached;
use alt_disk::Failed;
use alt_shell::Shell;

impl<'a, S: Shell> Shell for Cached<'a, S> {
    fn take(&mut self, buf: &mut [u8]) -> Result<usize, Failed> {
        self.disk.take(buf)
    }

    fn say(&mut self, bytes: &[u8]) -> Result<(), Failed> {
        self.disk.say(bytes)
    }

    fn accept(&mut self) -> Result<bool, Failed> {
        self.disk.accept()
    }

    fn hang_up(&mut self) {
        self.disk.hang_up();
    }

    fn note(&mut self, bytes: &[u8]) {
        self.disk.note(bytes);
    }

    fn now(&mut self) -> u64 {
        self.disk.now()
    }
}
