//! A request.

use pm_base::{Blob, Text};

/// A request as it was read (RFC 9112), of the fields that the producer looks at.
#[derive(Debug, Drop)]
pub struct Request {
    pub method: Text,
    pub target: Text,
    /// The value of the first Pm-Moment field, without the spaces and tabs around it.
    pub moment: Option<Text>,
    /// Whether the connection is closed after the reply: the version is HTTP/1.0, or a Connection field says so.
    pub close: bool,
    pub body: Blob,
}
