//! What stands at the front of bytes.

use alt_fields::Bytes;

/// What stands at the front of bytes that came.
#[derive(Debug, Drop)]
pub enum Scan {
    /// No whole head yet.
    More,
    /// A head that is refused, or what can become none, by the number of the refusal.
    Refused(u8),
    /// A head.
    Head {
        /// How many bytes it has.
        taken: usize,
        /// The value of the first `X-Amz-Target`.
        target: Option<Bytes>,
        /// The length of the body.
        length: u64,
        /// The client waits to be told to go on.
        expect: bool,
        /// The connection is to be closed behind the reply.
        close: bool,
    },
}
