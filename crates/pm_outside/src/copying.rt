//! Copies between buffers.
ghost use Rattle.std.specs.Prelude.{◌≡◌, length, take, min};

/// Copies the first of the bytes to the front of the buffer, as many as it has room for, and answers how many.
pub fn copy_front(bytes: &[u8], buf: &mut [u8]) -> usize
    ensures count { result ≡ min (length bytes.now) (length buf.old) }
    ensures moved { take result buf.new ≡ take result bytes.now }
{
    let count = if bytes.len() < buf.len() {
        bytes.len()
    } else {
        buf.len()
    };
    buf[..count].copy_from_slice(&bytes[..count]);
    count
}
