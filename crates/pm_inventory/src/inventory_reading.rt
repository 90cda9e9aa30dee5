//! The reading of an inventory, line by line up to its `end`.
//!
//!     object LDN
//!     measure NAME CLASS KIND REDUCE
//!     measure NAME CLASS DER REDUCE N
//!     end
ghost use Rattle.std.specs.Prelude.{◌≡◌, ◌+◌, ◌-◌, ◌≤◌, ◌<◌, ◌↔◌, length, take, IsTrue, IfOk, Err};
ghost use Rattle.pm_outside.specs.Causes.{faults_after};
ghost use Rattle.pm_base.specs.Lines.{HasNoLine};
ghost use Rattle.pm_outside.specs.Feed.{left_to, KnowsEnd, ReadsOn};
ghost use Rattle.pm_outside.specs.declared.feed.TheConstants.{MOST_READ};
ghost use Rattle.pm_inventory.specs.Inventory.{InventoryState, end_line};
ghost use Rattle.pm_inventory.specs.InventoryReading.{ReadsInventory, EndsAt, stop_error, is_read_failed};

use crate::inventory::{InvError, Inventory};
use crate::inventory_line::{LineError, take_line};
use pm_base::Code;
use pm_dn::Tree;
use pm_meas::Catalogue;
use pm_outside::{Feed, FeedError, Line, Source};
use std::alloc::Global;
use thiserror::Error;

/// Why an inventory was not read.
#[derive(Clone, Copy, Debug, PartialEq, Eq, Error)]
pub enum InventoryError {
    /// A line is refused, or the input ends before the inventory does.
    #[error("line {line} of the inventory is refused: {}", .code.name())]
    Refused {
        /// The number of the line, from 1; of a missing line (I2) the one that it would have.
        line: u64,
        /// The first rule broken.
        code: Code,
    },
    /// The source failed.
    #[error("the inventory could not be read")]
    Failed,
    /// As many bytes as may be read come before the end of the next line.
    #[error("the input is longer than may be read")]
    Limit,
    /// Out of memory; no line that was read breaks a rule.
    #[error("out of memory")]
    Memory,
}

/// An inventory, and how many lines it was read from.
#[derive(Drop)]
pub struct ReadInventory {
    /// The inventory.
    pub inventory: Inventory,
    /// The lines, that of `end` with them.
    pub lines: u64,
}

/// Reads the lines of an inventory up to `end`, which as the first line stands for the default inventory. What follows
/// `end` is left to the feed. The form of the lines is this project's own.
pub fn read_inventory<S: Source>(
    alloc: Global,
    feed: &mut Feed,
    source: &mut S,
) -> Result<ReadInventory, InventoryError>
    requires { S.IsTold → KnowsEnd feed.old (S.left source.old) }
    ensures read { S.IsTold → ReadsInventory (left_to feed.old (S.left source.old)) (left_to feed.new (S.left source.new)) result }
    ensures reads { ReadsOn S.IsTold feed.old feed.new (S.left source.old) (S.left source.new) }
    ensures limit { S.IsTold → result ≡ Err InventoryError.Limit → let left = left_to feed.new (S.left source.new) in (feed.new.given ≤ MOST_READ) × (MOST_READ ≤ feed.new.given + length left) × HasNoLine (take (MOST_READ - feed.new.given) left) }
    ensures few { IfOk result (λ r. r.lines ≤ MOST_READ + 1) }
    ensures open_line { result ≡ Err InventoryError.Failed → HasNoLine feed.new.buffered }
    ensures counted { S.faults source.new ≡ faults_after (is_read_failed result) (S.faults source.old) }
{
    let mut tree = Tree::new(alloc);
    let mut catalogue = Catalogue::new(alloc);
    let mut good = 0;
    'lines: loop {
        match feed.line(source) {
            Ok(Line::Whole { .. }) => {}
            Ok(Line::Long) => return Err(refused(good + 1, Code::I1)),
            Ok(Line::End) => return Err(refused(good + 1, Code::I2)),
            Err(FeedError::Failed) => return Err(InventoryError::Failed),
            Err(FeedError::Limit) => return Err(InventoryError::Limit),
        }
        if is_end(feed.bytes()) {
            return finish(alloc, tree, catalogue, good + 1);
        }
        match take_line(&mut tree, &mut catalogue, feed.bytes()) {
            Ok(()) => good += 1,
            Err(stop) => return Err(stopped(good + 1, stop)),
        }
    }
}

fn is_end(line: &[u8]) -> bool
    ensures { IsTrue result ↔ (line.now ≡ end_line) }
{
    line == b"end".as_slice()
}

fn refused(line: u64, code: Code) -> InventoryError
    ensures { result ≡ InventoryError.Refused line code }
{
    InventoryError::Refused { line, code }
}

fn stopped(line: u64, stop: LineError) -> InventoryError
    ensures { result ≡ stop_error line stop }
{
    match stop {
        LineError::Refused(code) => refused(line, code),
        LineError::Memory => InventoryError::Memory,
    }
}

// The inventory of the lines before this `end`.
fn finish(
    alloc: Global,
    tree: Tree,
    catalogue: Catalogue,
    line: u64,
) -> Result<ReadInventory, InventoryError>
    requires { 1 ≤ line }
    ensures ends { EndsAt (record { objects = tree; measures = catalogue }) line result }
    ensures few { IfOk result (λ r. r.lines ≡ line) }
{
    if line == 1 {
        return read_default(alloc);
    }
    match Inventory::finish(alloc, tree, catalogue) {
        Ok(inventory) => Ok(ReadInventory {
            inventory,
            lines: line,
        }),
        Err(InvError::N10) => Err(refused(line, Code::N10)),
        Err(InvError::M5) => Err(refused(line, Code::M5)),
        Err(InvError::Memory) => Err(InventoryError::Memory),
    }
}

fn read_default(alloc: Global) -> Result<ReadInventory, InventoryError>
    ensures ends { (state : InventoryState) → EndsAt state 1 result }
    ensures few { IfOk result (λ r. r.lines ≡ 1) }
{
    match Inventory::default(alloc) {
        Ok(inventory) => Ok(ReadInventory {
            inventory,
            lines: 1,
        }),
        Err(_) => Err(InventoryError::Memory),
    }
}
