//! The fields of a head.
ghost use Rattle.std.specs.Prelude.{◌++◌, ◌∷◌, ◌≡◌, ℕ, List, [], map, length};
ghost use Rattle.std.specs.List.{All};
ghost use Rattle.httparse.specs.Spans.{IsWithin, IsHeaderWithin, header_bytes, span_bytes};
ghost use Rattle.pm_http.specs.Head.{is_named, values_of};
ghost use Rattle.pm_http.specs.Fields.{IsValues};

use httparse::spans::{HeaderSpan, Span};

/// The values of the fields of one name, in order.
#[derive(Clone, Copy)]
pub enum Values {
    None,
    One(Span),
    /// The first of two or more.
    More(Span),
}

/// The values of the fields of this name, without regard to ASCII case.
pub fn values_named(buf: &[u8], fields: &[HeaderSpan], name: &[u8]) -> Values
    requires { All (IsHeaderWithin (length buf.now)) fields.now }
    ensures { (limit : ℕ) → All (IsHeaderWithin limit) fields.now → IsValues limit buf.now (values_of name.now (map (header_bytes buf.now) fields.now)) result }
{
    let mut found = Values::None;
    for field in fields {
        found = with_field(found, buf, *field, name);
    }
    found
}

// The values with those of one field more.
fn with_field(found: Values, buf: &[u8], field: HeaderSpan, name: &[u8]) -> Values
    requires { IsHeaderWithin (length buf.now) field }
    ensures { (limit : ℕ) (values : List (List ℕ)) → IsHeaderWithin limit field → IsValues limit buf.now values found → IsValues limit buf.now (values ++ values_of name.now (header_bytes buf.now field ∷ [])) result }
{
    if is_field(buf, field, name) {
        with_value(found, field.value)
    } else {
        found
    }
}

// The values with one more.
fn with_value(found: Values, value: Span) -> Values
    ensures { (limit : ℕ) (buf : List ℕ) (values : List (List ℕ)) → IsValues limit buf values found → IsWithin limit value → IsValues limit buf (values ++ span_bytes buf value ∷ []) result }
{
    match found {
        Values::None => Values::One(value),
        Values::One(first) => Values::More(first),
        Values::More(first) => Values::More(first),
    }
}

/// Whether a field has this name.
pub fn is_field(buf: &[u8], field: HeaderSpan, name: &[u8]) -> bool
    requires { IsHeaderWithin (length buf.now) field }
    ensures { result ≡ is_named name.now (header_bytes buf.now field) }
{
    field.name.of(buf).eq_ignore_ascii_case(name)
}
