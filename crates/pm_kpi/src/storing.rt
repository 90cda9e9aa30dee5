//! The sums over the files of a store.
ghost use Rattle.std.specs.Prelude.{◌≡◌, ◌<◌, ◌⊎◌, ◌++◌, ◌∷◌, [], List, length, IfOk, IfErr, OnOk};
ghost use Rattle.pm_outside.specs.Causes.{faults_after};
ghost use Rattle.pm_disk.specs.Moments.{DiskState, Throughout};
ghost use Rattle.pm_file.specs.Content.{ReportContent};
ghost use Rattle.pm_file.specs.Says.{content_of};
ghost use Rattle.pm_collect.specs.Stored.{HeldFile};
ghost use Rattle.pm_collect.specs.Collector.{Holds, EachHas};
ghost use Rattle.pm_collect.specs.Places.{rows_of, AreRows};
ghost use Rattle.pm_kpi.specs.Asked.{asked_content};
ghost use Rattle.pm_kpi.specs.Sums.{StandsFor};
ghost use Rattle.pm_kpi.specs.Faults.{names_disk, fails_by};
ghost use Rattle.pm_kpi.specs.Run.{IsText};
ghost use Rattle.pm_kpi.specs.Steps.{end_of, AddsFile, SumsFirst, RefusesStore};

use crate::rows::Asked;
use crate::{KpiEnd, Sums};
use pm_collect::{CollectError, Collector};
use pm_disk::Disk;
use pm_file::Report;
use std::alloc::Global;

/// Opens the store in the first area of the disk, and gives the lines of what is asked for over its files.
pub(crate) fn sum_store<D: Disk>(
    alloc: Global,
    disk: &mut D,
    asked: &Asked<'_>,
) -> Result<Vec<u8>, KpiEnd>
    ensures text { D.IsTold → IfOk result (λ text. IsText (asked_content asked.now) (D.told disk.old).now.first.seen text.items) }
    ensures refused { IfErr result (RefusesStore D.IsTold (D.told disk.old) (D.told disk.new)) }
    ensures any_moment { D.IsTold → (a b : List HeldFile) → EachHas a b (D.told disk.old).now → Throughout (EachHas a b) (D.told disk.old) (D.told disk.new) }
    ensures faults { D.faults disk.new ≡ faults_after (fails_by names_disk result) (D.faults disk.old) }
{
    let collector = match Collector::open(alloc, disk) {
        Ok(collector) => collector,
        Err(error) => return Err(end_of(error)),
    };
    let count = count_files(&collector);
    let mut sums = Sums::new(alloc);
    match sum_files(alloc, &collector, disk, count, asked, &mut sums) {
        Ok(()) => {}
        Err(end) => return Err(end),
    }
    match sums.text(asked.ratios, asked.by) {
        Ok(text) => Ok(text),
        Err(_) => Err(KpiEnd::Memory),
    }
}

// How many files are held. Their names are in byte order.
fn count_files(collector: &Collector) -> u32
    ensures count { result ≡ length (rows_of collector.now.names) }
    ensures rows { (disk : DiskState) (files : List HeldFile) → Holds collector.now disk files → AreRows files (rows_of collector.now.names) }
{
    let _files = collector.files();
    collector.count()
}

// Adds the held files to the sums, one after another in byte order of their names.
fn sum_files<D: Disk>(
    alloc: Global,
    collector: &Collector,
    disk: &mut D,
    count: u32,
    asked: &Asked<'_>,
    sums: &mut Sums,
) -> Result<(), KpiEnd>
    requires count { count ≡ length (rows_of collector.now.names) }
    requires holds { D.IsTold → (files : List HeldFile) × Holds collector.now (D.told disk.old).now files }
    ensures summed { D.IsTold → (files : List HeldFile) → Holds collector.now (D.told disk.old).now files → StandsFor (asked_content asked.now) [] sums.old
        → OnOk result (SumsFirst (asked_content asked.now) files (rows_of collector.now.names) (length (rows_of collector.now.names)) sums.new) }
    ensures told { D.IsTold → D.told disk.new ≡ D.told disk.old }
    ensures known { IfErr result (λ e. (e ≡ KpiEnd.StoreFault) ⊎ (e ≡ KpiEnd.Memory)) }
    ensures faults { D.faults disk.new ≡ faults_after (fails_by names_disk result) (D.faults disk.old) }
{
    for place in 0..count {
        match add_file(alloc, collector, disk, place, asked, sums) {
            Ok(()) => {}
            Err(end) => return Err(end),
        }
    }
    Ok(())
}

// Adds the file at this place to the sums, and drops it.
fn add_file<D: Disk>(
    alloc: Global,
    collector: &Collector,
    disk: &mut D,
    place: u32,
    asked: &Asked<'_>,
    sums: &mut Sums,
) -> Result<(), KpiEnd>
    requires inside { place < length (rows_of collector.now.names) }
    requires holds { D.IsTold → (files : List HeldFile) × Holds collector.now (D.told disk.old).now files }
    ensures added { D.IsTold → (files : List HeldFile) → Holds collector.now (D.told disk.old).now files → (reports : List ReportContent)
        → StandsFor (asked_content asked.now) reports sums.old → OnOk result (AddsFile (asked_content asked.now) files (rows_of collector.now.names) place reports sums.new) }
    ensures told { D.IsTold → D.told disk.new ≡ D.told disk.old }
    ensures known { IfErr result (λ e. (e ≡ KpiEnd.StoreFault) ⊎ (e ≡ KpiEnd.Memory)) }
    ensures faults { D.faults disk.new ≡ faults_after (fails_by names_disk result) (D.faults disk.old) }
{
    let text = match collector.load(alloc, disk, place) {
        Ok(text) => text,
        Err(error) => return Err(end_of(error)),
    };
    match Report::read(alloc, text.as_bytes()) {
        Ok(report) => add_report(asked, sums, &report),
        Err(_) => Err(KpiEnd::Memory),
    }
}

fn add_report(asked: &Asked<'_>, sums: &mut Sums, report: &Report) -> Result<(), KpiEnd>
    ensures added { (reports : List ReportContent) → StandsFor (asked_content asked.now) reports sums.old
        → OnOk result (StandsFor (asked_content asked.now) (reports ++ content_of report.now ∷ []) sums.new) }
    ensures known { IfErr result (λ e. e ≡ KpiEnd.Memory) }
{
    match sums.report(asked.ratios, report, asked.begin, asked.end, asked.by) {
        Ok(()) => Ok(()),
        Err(_) => Err(KpiEnd::Memory),
    }
}

// The end of a run whose store isn't opened, or whose file isn't loaded.
fn end_of(error: CollectError) -> KpiEnd
    ensures { result ≡ end_of error }
{
    match error {
        CollectError::StoreFault => KpiEnd::StoreFault,
        CollectError::Foreign => KpiEnd::Foreign,
        CollectError::Garbled { offset } => KpiEnd::Garbled { offset },
        _ => KpiEnd::Memory,
    }
}
