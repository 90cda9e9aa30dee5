//! A plain, slow reading of requests, line by line, beside which `next_request` is tested.

use pm_base::{cut_at, read_number};

/// What a plain reading finds of the first request of some bytes.
#[derive(Clone, Copy)]
pub struct Plain<'a> {
    pub method: &'a [u8],
    pub target: &'a [u8],
    pub moment: Option<&'a [u8]>,
    pub close: bool,
    /// The bytes of the head, and those of the body.
    pub head: usize,
    pub body: usize,
}

/// The first request, if the bytes begin with one.
pub fn plain_request(bytes: &[u8]) -> Option<Plain<'_>> {
    let mut head: usize = 0;
    let mut found: Option<Plain<'_>> = None;
    for line in bytes.split(|byte| *byte == b'\n') {
        head = head.saturating_add(line.len()).saturating_add(1);
        let line = line.strip_suffix(b"\r".as_slice()).unwrap_or(line);
        found = match found {
            None if line.is_empty() => None,
            None => Some(plain_start(line)?),
            Some(mut plain) if line.is_empty() => {
                plain.head = head;
                return Some(plain);
            }
            Some(plain) => Some(plain_field(plain, line)?),
        };
    }
    None
}

// What the first line tells.
fn plain_start(line: &[u8]) -> Option<Plain<'_>> {
    let (method, rest) = cut_at(b' ', line)?;
    let (target, version) = cut_at(b' ', rest)?;
    Some(Plain {
        method,
        target,
        moment: None,
        close: version == b"HTTP/1.0".as_slice(),
        head: 0,
        body: 0,
    })
}

// What is told with one line more.
fn plain_field<'a>(mut plain: Plain<'a>, line: &'a [u8]) -> Option<Plain<'a>> {
    let (name, value) = cut_at(b':', line)?;
    let value = value.trim_ascii();
    if name.eq_ignore_ascii_case(b"pm-moment") && plain.moment.is_none() {
        plain.moment = Some(value);
    } else if name.eq_ignore_ascii_case(b"content-length") {
        plain.body = read_number(value, 12)? as usize;
    } else if name.eq_ignore_ascii_case(b"connection") {
        for word in value.split(|byte| *byte == b',') {
            plain.close = plain.close || word.trim_ascii().eq_ignore_ascii_case(b"close");
        }
    }
    Some(plain)
}
