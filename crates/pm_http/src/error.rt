//! Why a call of this crate doesn't answer.

use pm_base::Text;
use thiserror::Error;

/// Why no request is read.
#[derive(Clone, Copy, Debug, PartialEq, Eq, Error)]
pub enum HttpError {
    /// The source failed, and counted one fault. The bytes that came before end inside a request.
    #[error("the source failed inside a request or before its first byte")]
    ReadFault,
    /// 1,099,511,627,776 bytes were taken from the source, and they don't give the answer.
    #[error("1,099,511,627,776 bytes were read, as many as may be, and they end inside a request")]
    Limit,
    /// Out of memory. What was read so far breaks no rule.
    #[error("out of memory while a request was read")]
    Memory,
}

/// Why no reply is read.
#[derive(Clone, Copy, Debug, PartialEq, Eq, Error)]
pub enum AnswerError {
    /// The bytes are no head of at most 64 fields, one of which tells the length of a body, and that body.
    #[error("the bytes are not one reply with a body of the length that its head tells")]
    X1,
    /// Out of memory for the body.
    #[error("out of memory for the body of a reply")]
    Memory,
}

/// Why a request takes no route.
#[derive(Debug, Drop, Error)]
pub enum RouteError {
    /// No resource has this path.
    #[error("no resource has the path of the request")]
    H5,
    /// The resource doesn't take this method. `allow` names those that it takes, with a comma and a space between two.
    #[error("the resource doesn't take the method of the request")]
    H6 { allow: Text },
    /// Out of memory. A resource has this path, where the router is made already.
    #[error("out of memory while the route of a request was made")]
    Memory,
}

/// Why the query of a listing isn't read.
#[derive(Clone, Copy, Debug, PartialEq, Eq, Error)]
pub enum QueryError {
    /// A name is none of a listing's or comes twice, or a time is no moment of 1 to 12 digits.
    #[error("a name of the query is unknown or comes twice, or a time is no moment of 1 to 12 digits")]
    L2,
    /// Out of memory. The pairs before one that isn't plain text break no rule.
    #[error("out of memory while a query was read")]
    Memory,
}

/// Why a reply isn't written.
#[derive(Clone, Copy, Debug, PartialEq, Eq, Error)]
pub enum ReplyError {
    /// The sink failed, and counted one fault.
    #[error("the sink failed while a reply was written")]
    WriteFault,
    /// Out of memory, before a byte was put. No reply takes memory today, so it isn't answered.
    #[error("out of memory while a reply was written")]
    Memory,
}
