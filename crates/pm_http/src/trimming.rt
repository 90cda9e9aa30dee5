//! Bytes without the spaces and tabs around them.
ghost use Rattle.std.specs.Prelude.{◌≡◌, reverse};
ghost use Rattle.httparse.specs.Grammar.{is_ows, skip_ows, trim_ows};

/// The bytes without the spaces and tabs at both ends.
pub fn trim(bytes: &[u8]) -> &[u8]
    ensures { result.now ≡ trim_ows bytes.now }
{
    trim_end(trim_start(bytes))
}

fn trim_start(bytes: &[u8]) -> &[u8]
    ensures { result.now ≡ skip_ows bytes.now }
{
    let mut left = bytes;
    'spaces: while let [first, rest @ ..] = left {
        if !is_space_or_tab(*first) {
            return left;
        }
        left = rest;
    }
    left
}

fn trim_end(bytes: &[u8]) -> &[u8]
    ensures { result.now ≡ reverse (skip_ows (reverse bytes.now)) }
{
    let mut left = bytes;
    'spaces: while let [rest @ .., last] = left {
        if !is_space_or_tab(*last) {
            return left;
        }
        left = rest;
    }
    left
}

fn is_space_or_tab(byte: u8) -> bool
    ensures { result ≡ is_ows byte }
{
    byte == b' ' || byte == b'\t'
}
