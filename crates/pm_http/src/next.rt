//! What a stream goes on with.

use crate::Request;
use pm_base::Code;

/// What is read from a stream of requests.
#[derive(Debug, Drop)]
pub enum Next {
    Request(Request),
    /// No byte is left.
    End,
    /// The request is refused by how it is framed, with H1, H2, H3, H4 or H7. `offset` is that of its first byte.
    Framing { code: Code, offset: u64 },
    /// The bytes end inside a request. `offset` is that of its first byte.
    CutShort { offset: u64 },
}
