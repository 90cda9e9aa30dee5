//! How a session ends.

use pm_base::Code;

/// How a session ends. Offsets and lengths are in bytes; an offset is counted from where the session started.
#[derive(Clone, Copy, Debug, PartialEq, Eq)]
pub enum SessionEnd {
    /// The input ended before a request's first byte.
    Ended,
    /// The last request asked for a close.
    Closed,
    /// The request at this offset is refused by how it is framed, with H1, H2, H3, H4 or H7, and was replied to.
    Framing { code: Code, offset: u64 },
    /// The input ends inside the request at this offset.
    CutShort { offset: u64 },
    /// 1,099,511,627,776 bytes were read, and they end inside a request.
    Limit,
    /// The input failed.
    ReadFault,
    /// The output failed.
    WriteFault,
    /// The disk failed, and the request in progress has no reply.
    StoreFault,
    /// The store has this length, and an item of the request in progress would need another one, which passes the limit.
    StoreFull { length: u64, need: u64 },
    /// Out of memory for the next request.
    Memory,
}
