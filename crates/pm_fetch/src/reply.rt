//! The replies of a peer.
ghost use Rattle.std.specs.Prelude.{IfSome};
ghost use Rattle.pm_fetch.specs.Replies.{Says, IsSaid};

use pm_base::Blob;
use pm_http::{AnswerError, read_answer};
use std::alloc::Global;

/// The bytes of a reply that are read. One of so many or more is none.
pub const MOST_REPLY: u32 = 134217728;

/// What a reply says.
#[derive(Debug, Drop)]
pub enum Said {
    /// It has status 200 and this body.
    Body(Blob),
    /// It has status 404.
    Absent,
    /// It is no reply, or has another status.
    Nothing,
}

/// Reads a reply, as it comes from a link that cuts it after `MOST_REPLY` bytes. None where memory is out.
pub fn read_reply(alloc: Global, bytes: &[u8]) -> Option<Said>
    ensures { IfSome result (Says bytes.now) }
{
    if bytes.len() >= MOST_REPLY as usize {
        return Some(Said::Nothing);
    }
    match read_answer(alloc, bytes) {
        Ok(answer) => Some(meaning_of(answer.status, answer.body)),
        Err(AnswerError::X1) => Some(Said::Nothing),
        Err(AnswerError::Memory) => None,
    }
}

// What a reply of this status and with this body says.
fn meaning_of(status: u16, body: Blob) -> Said
    ensures { IsSaid status body result }
{
    if status == 200 {
        Said::Body(body)
    } else if status == 404 {
        Said::Absent
    } else {
        Said::Nothing
    }
}
