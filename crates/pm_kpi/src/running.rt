//! A whole run: the ratios of the input over the files of a store.
ghost use Rattle.std.specs.Prelude.{◌≡◌, List, false};
ghost use Rattle.pm_outside.specs.Causes.{faults_after};
ghost use Rattle.pm_disk.specs.Moments.{Throughout};
ghost use Rattle.pm_collect.specs.Stored.{HeldFile};
ghost use Rattle.pm_collect.specs.Collector.{EachHas};
ghost use Rattle.pm_kpi.specs.Faults.{names_input, names_output, names_disk};
ghost use Rattle.pm_kpi.specs.Run.{IsOutcome};
ghost use Rattle.pm_kpi.specs.Steps.{Writes, run_of};

use crate::input::read_ratios;
use crate::rows::Asked;
use crate::storing::sum_store;
use crate::{By, KpiEnd, Ratios};
use pm_disk::Disk;
use pm_outside::{Sink, Source};
use std::alloc::Global;

/// Reads the ratios of the input, opens the store in the first area of the disk, and writes a line for each key that has a row
/// in the parts between two moments. The store is opened after the whole input was read.
pub fn kpi<S: Source, K: Sink, D: Disk>(
    alloc: Global,
    input: &mut S,
    output: &mut K,
    disk: &mut D,
    begin: u64,
    end: u64,
    by: By,
) -> KpiEnd
    // Where the objects outside tell what they have.
    ensures outcome { S.IsTold → K.IsTold → D.IsTold → IsOutcome (run_of begin end by (S.left input.old) (K.written output.old) (K.written output.new)) (D.told disk.old) (D.told disk.new) result }

    // At every moment of the call each image has files that some image had at the start.
    ensures any_moment { D.IsTold → (a b : List HeldFile) → EachHas a b (D.told disk.old).now → Throughout (EachHas a b) (D.told disk.old) (D.told disk.new) }

    // A fault is counted exactly where the end names it.
    ensures input { S.faults input.new ≡ faults_after (names_input result) (S.faults input.old) }
    ensures output { K.faults output.new ≡ faults_after (names_output result) (K.faults output.old) }
    ensures disk { D.faults disk.new ≡ faults_after (names_disk result) (D.faults disk.old) }
{
    let mut ratios = Ratios::new(alloc);
    match read_ratios(alloc, input, &mut ratios) {
        Ok(()) => {}
        Err(end) => return end,
    }
    let asked = Asked {
        ratios: &ratios,
        begin,
        end,
        by,
    };
    match sum_store(alloc, disk, &asked) {
        Ok(text) => put(output, &text),
        Err(end) => end,
    }
}

// Writes the text.
fn put<K: Sink>(output: &mut K, text: &[u8]) -> KpiEnd
    ensures written { K.IsTold → Writes text.now (K.written output.old) (K.written output.new) result }
    ensures no_other { (names_input result ≡ false) × (names_disk result ≡ false) }
    ensures counted { K.faults output.new ≡ faults_after (names_output result) (K.faults output.old) }
{
    if text.is_empty() {
        return KpiEnd::Done;
    }
    match output.put(text) {
        Ok(()) => KpiEnd::Done,
        Err(_) => KpiEnd::WriteFault,
    }
}
