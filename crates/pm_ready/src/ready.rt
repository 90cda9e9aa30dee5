//! A report file that is ready.
ghost use Rattle.std.specs.Prelude.{◌≡◌, ◌≤◌, true, length};
ghost use Rattle.pm_notice.specs.NameTest.{is_file_name};
ghost use Rattle.pm_base.specs.declared.moment.TheConstants.{LAST_MOMENT};

use pm_base::Blob;
use pm_notice::FileInfo;

/// A report file, and what listings and notices say of it: its name, its length, and the moment at which it is ready, the end
/// of its reporting period.
#[derive(Drop)]
pub struct ReadyFile {
    pub info: FileInfo,
    pub text: Blob,
    pub ghost named: { is_file_name info.name ≡ true },
    pub ghost ready: { info.ready ≤ LAST_MOMENT },
    pub ghost size: { info.size ≡ length text },
}
