//! The ratios that are asked for, in the order of their lines.
ghost use Rattle.std.specs.Prelude.{◌≡◌, ◌≤◌, [], length, map};
ghost use Rattle.pm_kpi.specs.Ratio.{is_named};

use crate::ratio_line::read_ratio;
use crate::{KpiError, Ratio};
use std::alloc::Global;

/// The most ratios.
pub const MOST_RATIOS: usize = 64;

/// Ratios of different names. A ratio's number is its place, from 0.
#[derive(Drop)]
pub struct Ratios {
    alloc: Global,
    list: Vec<Ratio>,
    ghost few: { length list.items ≤ 64 },
}

impl Ratios {
    ghost use Rattle.pm_kpi.specs.Ratios.{ratio_content, ratios_of, Adds};

    /// No ratio.
    pub fn new(alloc: Global) -> Ratios
        ensures { ratios_of result ≡ [] }
    {
        Ratios {
            alloc,
            list: Vec::new(alloc),
        }
    }

    /// Adds the ratio of a line `ratio NAME NUM DEN`, its line feed left out, and answers its number.
    pub fn add(&mut self, line: &[u8]) -> Result<u8, KpiError>
        ensures { Adds (ratios_of self.old) line.now result (ratios_of self.new) }
    {
        let Ok(read) = read_ratio(self.alloc, line) else {
            return Err(KpiError::Memory);
        };
        let Some(ratio) = read else {
            return Err(KpiError::K1);
        };
        if self.has_name(ratio.name.as_bytes()) {
            return Err(KpiError::K2);
        }
        if self.list.len() >= MOST_RATIOS {
            return Err(KpiError::K3);
        }
        let number = self.list.len() as u8;
        match self.list.push(ratio) {
            Ok(()) => Ok(number),
            Err(_) => Err(KpiError::Memory),
        }
    }

    /// The ratios, in the order of their numbers.
    pub fn list(&self) -> &[Ratio]
        ensures value { map ratio_content result.now ≡ ratios_of self.now }
        ensures few { length result.now ≤ 64 }
    {
        self.list.as_slice()
    }

    // Whether a ratio of this name was given.
    fn has_name(&self, name: &[u8]) -> bool
        ensures { result ≡ is_named (ratios_of self.now) name.now }
    {
        for ratio in &self.list {
            if ratio.name.as_bytes() == name {
                return true;
            }
        }
        false
    }
}
