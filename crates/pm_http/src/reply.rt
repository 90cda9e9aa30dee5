//! A reply.

use pm_base::{Blob, Code, Text};

/// What a request is answered (RFC 9112).
#[derive(Debug, Drop)]
pub struct Reply {
    pub status: u16,
    /// The code of a refusal. Its body is made from the code and the line, and `body` isn't written.
    pub code: Option<Code>,
    /// The number of the line that is refused, from 1; 0 where the code has none.
    pub line: u32,
    /// The methods of the Allow field, which comes with the code H6 alone.
    pub allow: Text,
    pub body: Blob,
    /// Whether the method of the request is HEAD. Then no body is written, and the fields are those of the reply to GET
    /// (RFC 9110, section 9.3.2). A framing refusal has its body, since the method isn't read there.
    pub head: bool,
}
