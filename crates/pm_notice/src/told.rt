//! What a notice says that was read.

use crate::{Crossed, FileInfo};
use pm_base::Text;

/// That a file is ready. Its own moment and that of the event may differ.
#[derive(Debug, Drop)]
pub struct ToldFile {
    /// The moment of the event.
    pub event: u64,
    pub file: FileInfo,
    /// The number of the notice.
    pub number: u64,
    /// The distinguished name of the object that tells it.
    pub element: Text,
}

/// That a threshold was crossed.
#[derive(Debug, Drop)]
pub struct ToldCrossing {
    /// The number of the notice.
    pub number: u64,
    pub crossing: Crossed,
}

/// What a notice says.
#[derive(Debug, Drop)]
pub enum Told {
    FileReady(ToldFile),
    Crossing(ToldCrossing),
}
