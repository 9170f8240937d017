//! The bytes of a connection that no turn has used, with what is known of what stands in front of them: so that a head that comes in
//! pieces isn't read from its first byte for each of them, nor one whose body comes so.

ghost use Rattle.std.specs.Prelude.{◌≡◌, ◌≤◌, ◌++◌, [], drop, length, IfOk, OnOk};
ghost use Rattle.alt_http.specs.Reading.{scan_of};
ghost use Rattle.alt_talks.specs.private.HeadViews.{scan_in, is_more};

use alt_base::NoMemory;
use alt_fields::Bytes;
use alt_http::{Scan, scan_more};
use std::alloc::Global;
use std::marker::Model;

/// A head in front.
#[derive(Drop)]
pub(crate) struct Head {
    pub(crate) taken: usize,
    pub(crate) target: Option<Bytes>,
    pub(crate) length: u64,
    pub(crate) expect: bool,
    pub(crate) close: bool,
}

/// Bytes, of which more may come. `seen` of them were answered by `More`, and `head` was found in front of them.
#[derive(Drop)]
pub(crate) struct Front {
    bytes: Vec<u8>,
    seen: usize,
    head: Option<Head>,
}

impl Model for Front {
    ghost use Rattle.std.specs.Prelude.{ℕ, List};
    ghost use Rattle.alt_talks.specs.private.HeadViews.{HeadIsScanned};

    ghost Value = { List ℕ };

    ghost view = { λ f. f.bytes.items };

    ghost invariant = { λ f. HeadIsScanned f.bytes.items f.seen f.head };
}

impl Front {
    pub(crate) fn new(alloc: Global) -> Front
        ensures { result ≡ [] }
    {
        Front {
            bytes: Vec::new(alloc),
            seen: 0,
            head: None,
        }
    }

    pub(crate) fn as_slice(&self) -> &[u8]
        ensures same { result.now ≡ self.now }
    {
        self.bytes.as_slice()
    }

    pub(crate) fn len(&self) -> usize
        ensures { result ≡ length self.now }
    {
        self.bytes.len()
    }

    /// Puts bytes that were taken behind these.
    pub(crate) fn extend(&mut self, piece: &[u8]) -> Result<(), NoMemory>
        ensures more { OnOk result (self.new ≡ self.old ++ piece.now) }
    {
        match self.bytes.extend_from_slice(piece) {
            Ok(()) => Ok(()),
            Err(_) => Err(NoMemory),
        }
    }

    /// Drops the first so many bytes, and what was known of them.
    pub(crate) fn pass(&mut self, count: usize)
        requires { count ≤ length self.old }
        ensures { self.new ≡ drop count self.old }
    {
        self.bytes.drain(..count);
        self.seen = 0;
        self.head = None;
    }

    /// What stands in front. A head is handed out, and is to be kept where it is wanted again.
    pub(crate) fn scan(&mut self, alloc: Global) -> Result<Scan, NoMemory>
        ensures answer { IfOk result (λ scan. scan ≡ scan_of self.old) }
        ensures stays { self.new ≡ self.old }
    {
        if let Some(head) = self.head.take() {
            return Ok(told(head));
        }
        let scan = scan_more(alloc, &self.bytes, self.seen)?;
        if is_more(&scan) {
            self.seen = self.bytes.len();
        }
        Ok(scan)
    }

    /// Keeps a head that was found, for when more has come.
    pub(crate) fn keep(&mut self, head: Head)
        requires found { scan_of self.old ≡ scan_in head }
        ensures stays { self.new ≡ self.old }
    {
        self.head = Some(head);
    }
}

fn told(head: Head) -> Scan
    ensures { result ≡ scan_in head }
{
    let Head {
        taken,
        target,
        length,
        expect,
        close,
    } = head;
    Scan::Head {
        taken,
        target,
        length,
        expect,
        close,
    }
}

fn is_more(scan: &Scan) -> bool
    ensures { result ≡ is_more scan.now }
{
    match scan {
        Scan::More => true,
        _ => false,
    }
}
