//! The notices of the input, one a line.
ghost use Rattle.std.specs.Prelude.{◌≡◌, List, OnOk, IfErr};
ghost use Rattle.pm_disk.specs.Moments.{DiskState};
ghost use Rattle.pm_outside.specs.Causes.{faults_after};
ghost use Rattle.pm_collect.specs.Collector.{Holds};
ghost use Rattle.pm_collect.specs.Names.{MakesTold};
ghost use Rattle.pm_collect.specs.Stored.{HeldFile};
ghost use Rattle.pm_collect.specs.Told.{told_by_notice};
ghost use Rattle.pm_fetch.specs.Telling.{Tells, IsEarly};
ghost use Rattle.pm_fetch.specs.Faults.{names_input, fails_by};

use crate::FetchEnd;
use pm_collect::{CollectError, Collector};
use pm_outside::{Feed, FeedError, NextLine, Source, next_line};
use std::alloc::Global;

/// Reads the notices up to the end of the input. The files that they tell are wanted, unless they are held.
pub fn read_notices<S: Source>(
    alloc: Global,
    input: &mut S,
    collector: &mut Collector,
) -> Result<(), FetchEnd>
    ensures stands { (disk : DiskState) (files : List HeldFile) → Holds collector.old disk files → Holds collector.new disk files }
    ensures store { collector.new.journal ≡ collector.old.journal }
    ensures known { IfErr result IsEarly }
    ensures counted { S.faults input.new ≡ faults_after (fails_by names_input result) (S.faults input.old) }
{
    let Ok(mut feed) = Feed::new(alloc) else {
        return Err(FetchEnd::Memory);
    };
    for line in 1..u64::MAX {
        match next_line(&mut feed, input) {
            Ok(NextLine::Line) => {}
            Ok(NextLine::Last) => return tell(collector, feed.bytes(), line),
            Ok(NextLine::Long) => return Err(FetchEnd::NoNotice { line }),
            Ok(NextLine::None) => return Ok(()),
            Err(FeedError::Limit) => return Err(FetchEnd::TooLong),
            Err(FeedError::Failed) => return Err(FetchEnd::ReadFault),
        }
        tell(collector, feed.bytes(), line)?;
    }
    Err(FetchEnd::Memory)
}

// Tells the collector a notice, which is the line of this number.
fn tell(collector: &mut Collector, notice: &[u8], line: u64) -> Result<(), FetchEnd>
    ensures tells { Tells notice.now line result }
    ensures told { OnOk result (MakesTold (told_by_notice notice.now) collector.old.names collector.new.names) }
    ensures stands { (disk : DiskState) (files : List HeldFile) → Holds collector.old disk files → Holds collector.new disk files }
    ensures store { collector.new.journal ≡ collector.old.journal }
{
    match collector.notice(notice) {
        Ok(()) => Ok(()),
        Err(CollectError::C1) => Err(FetchEnd::NoNotice { line }),
        Err(_) => Err(FetchEnd::Memory),
    }
}
