//! The pieces of input that a shell in memory gives out.

ghost use Rattle.std.specs.Prelude.{◌≡◌, ◌<◌, length};
ghost use Rattle.std.specs.List.{All};

use alt_base::NoMemory;
use std::alloc::Global;
use std::collections::VecDeque;

/// Pieces of input, in the order in which they are given. None is empty.
#[derive(Drop)]
pub(crate) struct Pieces {
    pub(crate) waiting: VecDeque<Vec<u8>>,
    ghost filled: { All (λ p. 0 < length p.items) waiting.items },
}

impl Pieces {
    ghost use Rattle.std.specs.Prelude.{[], drop, IfOk, OnErr};
    ghost use Rattle.alt_shell.specs.Pieces.{bytes_given_by_take, front_of, replaced, with_piece};
    ghost use Rattle.alt_shell.specs.Waiting.{pieces_of};

    /// No pieces.
    pub(crate) fn new(alloc: Global) -> Self
        ensures { pieces_of result ≡ [] }
    {
        Pieces {
            waiting: VecDeque::new(alloc),
        }
    }

    /// Adds a piece behind the others; an empty one is none.
    pub(crate) fn add(&mut self, alloc: Global, piece: &[u8]) -> Result<(), NoMemory>
        ensures ok { IfOk result (λ _. pieces_of self.new
            ≡ with_piece (pieces_of self.old) piece.now) }
        ensures err { OnErr result (pieces_of self.new ≡ pieces_of self.old) }
    {
        if piece.is_empty() {
            return Ok(());
        }
        let piece = Vec::from_slice(alloc, piece)?;
        self.waiting.push_back(piece)?;
        Ok(())
    }

    /// The bytes to give of the first piece, and those that it has left.
    pub(crate) fn parts(&self, alloc: Global, most: usize) -> Result<(Vec<u8>, Vec<u8>), NoMemory>
        ensures { IfOk result (λ p. (p.0.items ≡ bytes_given_by_take (pieces_of self.now) most)
            × (p.1.items ≡ drop most (front_of (pieces_of self.now)))) }
    {
        let Some(piece) = self.waiting.front() else {
            return Ok((Vec::new(alloc), Vec::new(alloc)));
        };
        let count = piece.len().min(most);
        Ok((
            Vec::from_slice(alloc, &piece[..count])?,
            Vec::from_slice(alloc, &piece[count..])?,
        ))
    }

    /// Leaves the rest of the first piece, or the pieces behind it where there is no rest.
    pub(crate) fn advance(&mut self, rest: Vec<u8>)
        ensures { pieces_of self.new ≡ replaced (pieces_of self.old) rest.items }
    {
        if rest.is_empty() {
            self.waiting.pop_front();
            return;
        }
        if let Some(front) = self.waiting.front_mut() {
            *front = rest;
        }
    }
}
