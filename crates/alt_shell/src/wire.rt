//! One stream of a shell in memory, both ways: the pieces that it has left to give, and what was said on it.

ghost use Rattle.std.specs.Prelude.{◌≡◌, [], true};
ghost use Rattle.alt_shell.specs.Waiting.{pieces_of};

use crate::pieces::Pieces;
use alt_base::NoMemory;
use std::alloc::Global;

/// The standard streams, or a talk. No piece is left where the end was taken.
#[derive(Drop)]
pub(crate) struct Wire {
    pub(crate) pieces: Pieces,
    pub(crate) over: bool,
    pub(crate) said: Vec<u8>,
    ghost no_more: { over ≡ true → pieces_of pieces ≡ [] },
}

impl Wire {
    ghost use Rattle.std.specs.Prelude.{IfOk, OnOk, OnErr, ◌||◌};
    ghost use Rattle.alt_shell.specs.Pieces.{with_more, replaced};
    ghost use Rattle.alt_shell.specs.States.{heard_by};
    ghost use Rattle.alt_shell.specs.Streams.{unheard, after_say};

    /// A stream with these pieces, on which nothing was heard.
    pub(crate) fn new(alloc: Global, pieces: Pieces) -> Self
        ensures pieces { pieces_of result.pieces ≡ pieces_of pieces }
        ensures heard { heard_by result ≡ unheard }
    {
        Wire {
            pieces,
            over: false,
            said: Vec::new(alloc),
        }
    }

    /// Adds a piece; one behind an end that was taken is none.
    pub(crate) fn add(&mut self, alloc: Global, piece: &[u8]) -> Result<(), NoMemory>
        ensures ok { IfOk result (λ _. pieces_of self.new.pieces
            ≡ with_more self.old.over (pieces_of self.old.pieces) piece.now) }
        ensures err { OnErr result (pieces_of self.new.pieces ≡ pieces_of self.old.pieces) }
        ensures heard { heard_by self.new ≡ heard_by self.old }
    {
        if self.over {
            return Ok(());
        }
        self.pieces.add(alloc, piece)
    }

    /// Leaves the rest of the piece of which these bytes were given. Where they are none the end was taken.
    pub(crate) fn advance(&mut self, none: bool, rest: Vec<u8>)
        requires { none ≡ true → pieces_of self.old.pieces ≡ [] }
        ensures pieces { pieces_of self.new.pieces
            ≡ replaced (pieces_of self.old.pieces) rest.items }
        ensures over { self.new.over ≡ (self.old.over || none) }
        ensures said { self.new.said.items ≡ self.old.said.items }
    {
        self.over = self.over || none;
        self.pieces.advance(rest);
    }

    /// Says these bytes. After an error none were said.
    pub(crate) fn say(&mut self, bytes: &[u8]) -> Result<(), NoMemory>
        ensures ok { OnOk result (heard_by self.new ≡ after_say bytes.now (heard_by self.old)) }
        ensures err { OnErr result (heard_by self.new ≡ heard_by self.old) }
        ensures pieces { self.new.pieces ≡ self.old.pieces }
    {
        self.said.reserve(bytes.len())?;
        self.said.extend_from_slice(bytes)?;
        Ok(())
    }
}
