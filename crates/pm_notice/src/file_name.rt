//! The names of report files in notices and listings.
ghost use Rattle.std.specs.Prelude.{◌≡◌};
ghost use Rattle.pm_notice.specs.NameTest.{is_file_name};

use pm_name::FileName;

/// Whether the bytes are the name of a report file.
pub(crate) fn is_file_name(bytes: &[u8]) -> bool
    ensures { result ≡ is_file_name bytes.now }
{
    FileName::check(bytes).is_ok()
}
