//! Tests of the grammars of names.
ghost use Rattle.std.specs.Prelude.{◌↔◌, IsTrue, Contains};
ghost use Rattle.std.specs.List.{AllPass};
ghost use Rattle.std.specs.Char.{is_ascii_alphanumeric};
ghost use Rattle.pm_base.specs.Names.{IsDnClass, IsDnId, IsJobId, IsMeasureName, is_name_char, is_id_char};

/// The most bytes of a class and of an id in a distinguished name, and of the name of a measurement.
pub const WORD_BYTES: usize = 64;

/// The most bytes of the id of a job, a monitor or a subscription.
pub const ID_BYTES: usize = 32;

fn is_alphanumeric(bytes: &[u8]) -> bool
    ensures { IsTrue result ↔ AllPass is_ascii_alphanumeric bytes.now }
{
    bytes.iter().all(|b| b.is_ascii_alphanumeric())
}

fn has_name_alphabet(bytes: &[u8]) -> bool
    ensures { IsTrue result ↔ AllPass is_name_char bytes.now }
{
    bytes
        .iter()
        .all(|b| b.is_ascii_alphanumeric() || *b == b'-' || *b == b'.')
}

fn has_id_alphabet(bytes: &[u8]) -> bool
    ensures { IsTrue result ↔ AllPass is_id_char bytes.now }
{
    bytes
        .iter()
        .all(|b| b.is_ascii_alphanumeric() || *b == b'-')
}

fn has_dot(bytes: &[u8]) -> bool
    ensures { IsTrue result ↔ Contains bytes.now 46 }
{
    bytes.contains(&b'.')
}

/// Whether the bytes are a class of a part of a distinguished name: 1 to 64 ASCII letters and digits, a letter first.
pub fn is_dn_class(bytes: &[u8]) -> bool
    ensures { IsTrue result ↔ IsDnClass bytes.now }
{
    1 <= bytes.len()
        && bytes.len() <= WORD_BYTES
        && bytes[0].is_ascii_alphabetic()
        && is_alphanumeric(bytes)
}

/// Whether the bytes are an id of a part of a distinguished name: 1 to 64 ASCII letters, digits, `.` and `-`.
pub fn is_dn_id(bytes: &[u8]) -> bool
    ensures { IsTrue result ↔ IsDnId bytes.now }
{
    1 <= bytes.len() && bytes.len() <= WORD_BYTES && has_name_alphabet(bytes)
}

/// Whether the bytes are an id of a job, a monitor or a subscription: 1 to 32 ASCII letters, digits and `-`, a letter or
/// digit first.
pub fn is_job_id(bytes: &[u8]) -> bool
    ensures { IsTrue result ↔ IsJobId bytes.now }
{
    1 <= bytes.len()
        && bytes.len() <= ID_BYTES
        && bytes[0].is_ascii_alphanumeric()
        && has_id_alphabet(bytes)
}

/// Whether the bytes are the name of a measurement: 3 to 64 ASCII letters, digits, `.` and `-`, a letter first, at least
/// one `.`, and none at the end.
pub fn is_measure_name(bytes: &[u8]) -> bool
    ensures { IsTrue result ↔ IsMeasureName bytes.now }
{
    3 <= bytes.len()
        && bytes.len() <= WORD_BYTES
        && bytes[0].is_ascii_alphabetic()
        && bytes[bytes.len() - 1] != b'.'
        && has_dot(bytes)
        && has_name_alphabet(bytes)
}
