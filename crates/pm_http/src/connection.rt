//! Whether a connection is closed after the reply.
ghost use Rattle.std.specs.Prelude.{◌≡◌, map, length};
ghost use Rattle.std.specs.List.{All, list_any};
ghost use Rattle.httparse.specs.Spans.{IsHeaderWithin, header_bytes};
ghost use Rattle.pm_http.specs.Head.{is_close, has_close, says_close, closes};

use crate::fields::is_field;
use crate::trimming::trim;
use httparse::spans::HeaderSpan;
use pm_base::cut_at;

/// Whether the connection is closed: by the minor number of the version, or by a Connection field with the word `close`.
pub fn is_closing(buf: &[u8], minor: u8, fields: &[HeaderSpan]) -> bool
    requires { All (IsHeaderWithin (length buf.now)) fields.now }
    ensures { result ≡ closes minor (map (header_bytes buf.now) fields.now) }
{
    minor == 0 || some_says_close(buf, fields)
}

fn some_says_close(buf: &[u8], fields: &[HeaderSpan]) -> bool
    requires { All (IsHeaderWithin (length buf.now)) fields.now }
    ensures { result ≡ list_any says_close (map (header_bytes buf.now) fields.now) }
{
    for field in fields {
        if field_says_close(buf, *field) {
            return true;
        }
    }
    false
}

fn field_says_close(buf: &[u8], field: HeaderSpan) -> bool
    requires { IsHeaderWithin (length buf.now) field }
    ensures { result ≡ says_close (header_bytes buf.now field) }
{
    is_field(buf, field, b"connection") && has_word_close(field.value.of(buf))
}

// Whether one of the words between commas is `close`.
fn has_word_close(value: &[u8]) -> bool
    ensures { result ≡ has_close value.now }
{
    let mut left = value;
    'words: while let Some((word, more)) = cut_at(b',', left) {
        if is_word_close(word) {
            return true;
        }
        left = more;
    }
    is_word_close(left)
}

fn is_word_close(word: &[u8]) -> bool
    ensures { result ≡ is_close word.now }
{
    trim(word).eq_ignore_ascii_case(b"close")
}
