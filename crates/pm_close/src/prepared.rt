//! What following a plan needs.
use crate::open_job::OpenJob;
use crate::open_monitors::KeptMonitor;

/// What will be kept of the job or of the monitor that a plan makes, with its memory taken.
#[derive(Drop)]
pub struct Prepared {
    pub(crate) job: Option<OpenJob>,
    pub(crate) monitor: Option<KeptMonitor>,
}
