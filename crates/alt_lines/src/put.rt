//! Lines that are put together from texts and numbers.

ghost use Rattle.std.specs.Prelude.{◌≡◌, ◌++◌, OnOk, OnErr};
ghost use Rattle.alt_lines.specs.Printed.{line_piece_text, line_pieces_text};

use crate::pieces::Piece;
use alt_base::NoMemory;
use itoa::Buffer;

fn put_piece(out: &mut Vec<u8>, piece: Piece) -> Result<(), NoMemory>
    ensures ok { OnOk result (out.new.items ≡ out.old.items ++ line_piece_text piece.entry) }
    ensures err { OnErr result (out.new.items ≡ out.old.items) }
{
    let added = match piece {
        Piece::Text(text) => out.extend_from_slice(text),
        Piece::Number(n) => out.extend_from_slice(Buffer::new().format(n).as_bytes()),
    };
    match added {
        Ok(()) => Ok(()),
        Err(_) => Err(NoMemory),
    }
}

/// Appends all of the pieces, or nothing.
pub(crate) fn put(out: &mut Vec<u8>, pieces: &[Piece]) -> Result<(), NoMemory>
    ensures ok { OnOk result (out.new.items ≡ out.old.items ++ line_pieces_text pieces.now) }
    ensures err { OnErr result (out.new.items ≡ out.old.items) }
{
    let before = out.len();
    for piece in pieces {
        if put_piece(out, *piece).is_err() {
            out.truncate(before);
            return Err(NoMemory);
        }
    }
    Ok(())
}
