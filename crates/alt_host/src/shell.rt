//! The shell in hand: its counts and what it stands on.

ghost use Rattle.std.specs.Prelude.{◌≡◌, ◌≤◌, true, false, IfOk, is_none};
ghost use Rattle.alt_base.specs.Counts.{Rose, next_moment};

use crate::folder::Folder;
use crate::standard;
use crate::talk::{self, Peer};
use alt_disk::{DiskFault, Failed};
use std::alloc::Global;
use std::fs::File;
use std::net::Net;
use std::rt::Runtime;

/// A folder, the standard streams, connections on the loopback address and the clock. It counts its calls and their failures, and
/// tells nothing else.
#[derive(Drop)]
pub struct HostShell<R: Runtime<File = File> + Net> {
    pub(crate) rt: R,
    /// In the place of standard streams that were closed.
    pub(crate) closed: Vec<File>,
    pub(crate) folder: Folder,
    pub(crate) listener: Option<R::Listener>,
    pub(crate) peer: Option<Peer<R::Stream>>,
    pub(crate) talking: bool,
    pub(crate) moment: u64,
    pub(crate) faults: u64,
    pub(crate) given: u64,
    pub(crate) talk_faults: u64,
    pub(crate) takes_missed: u64,
    pub(crate) says_missed: u64,
}

impl<R: Runtime<File = File> + Net> HostShell<R> {
    /// Opens the folder of that path, which is made where it isn't there, and holds it under a lock; and listens on 127.0.0.1 at the
    /// port, unless that is 0. Failed where another process has the folder or the port, or where the system fails. Before that it takes
    /// the places of the standard streams that are closed, so that no file of the folder is one.
    pub fn new(rt: R, alloc: Global, folder: &str, port: u16) -> Result<HostShell<R>, DiskFault>
        ensures counts { IfOk result (λ s. (s.moment ≡ 0) × (s.given ≡ 0) × (s.faults ≡ 0)
            × (s.talk_faults ≡ 0)) }
        ensures quiet { IfOk result (λ s. s.talking ≡ false) }
        ensures listener { port ≡ 0 → IfOk result (λ s. is_none s.listener ≡ true) }
    {
        let closed = match standard::held(&rt, alloc) {
            Ok(closed) => closed,
            Err(fault) => return Err(fault),
        };
        let folder = match Folder::open(&rt, alloc, folder) {
            Ok(folder) => folder,
            Err(fault) => return Err(fault),
        };
        let mut listener = None;
        if port != 0 {
            let Ok(open) = talk::listen(&rt, port) else {
                return Err(DiskFault::Failed);
            };
            listener = Some(open);
        }
        Ok(HostShell {
            rt,
            closed,
            folder,
            listener,
            peer: None,
            talking: false,
            moment: 0,
            faults: 0,
            given: 0,
            talk_faults: 0,
            takes_missed: 0,
            says_missed: 0,
        })
    }

    /// Takes the moment of a call that fails.
    pub(crate) fn fails(&mut self) -> Failed
        ensures moment { self.new.moment ≡ next_moment self.old.moment }
        ensures later { self.old.faults ≤ self.new.faults }
        ensures rose { Rose self.old.faults self.new.faults }
        ensures talking { self.new.talking ≡ self.old.talking }
        ensures talk { self.new.talk_faults ≡ self.old.talk_faults }
        ensures takes { self.new.takes_missed ≡ self.old.takes_missed }
        ensures says { self.new.says_missed ≡ self.old.says_missed }
        ensures listener { self.new.listener ≡ self.old.listener }
    {
        self.moment = self.moment.saturating_add(1);
        self.faults = self.faults.saturating_add(1);
        Failed
    }
}
