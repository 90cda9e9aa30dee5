//! What is known of each thread's share in a bank. No value of most of these types is made: the rule of the bank speaks of them.
use pm_meas::Cell;
use std::collections::LinkedList;

/// An event that is to be counted.
#[derive(Clone, Copy, Debug, PartialEq, Eq)]
pub struct Hit {
    /// The slot's number in its bank.
    pub slot: u32,
    /// The value in the metric's unit, at most 1,048,575.
    pub value: u32,
}

/// An event that was counted, with its epoch.
#[derive(Drop)]
pub struct Entry {
    /// The epoch of its arrival.
    pub epoch: u32,
    /// The slot's number.
    pub slot: u32,
    /// The value in the metric's unit.
    pub value: u32,
}

/// What was taken of an ended epoch.
#[derive(Drop)]
pub struct Taken {
    /// The epoch.
    pub epoch: u32,
    /// How many events arrived in it.
    pub arrived: u32,
    /// One cell for each slot.
    pub cells: LinkedList<Cell>,
}

/// A number at one word of a slot: what an open visit laid there, or what was found there.
#[derive(Drop)]
pub struct Part {
    /// 0 is how many events, 1 their sum, 2 the greatest value, and 3 the least.
    pub word: u64,
    /// The slot's number.
    pub slot: u64,
    /// The number.
    pub amount: u64,
}

/// What the keeper knows in numbers.
#[derive(Drop)]
pub struct Numbers {
    /// The epoch that is open.
    pub epoch: u64,
    /// How many passes are out.
    pub out: u64,
    /// The sum of their quotas.
    pub quotas: u64,
    /// How many of them were hired in the ended epoch or earlier.
    pub older: u64,
    /// How many entries the passes have that were met since the last flip.
    pub met: u64,
    /// 1 where a pass was met that is still in the numbers above.
    pub late: u64,
    /// Its quota.
    pub late_quota: u64,
    /// 1 where it was hired in the ended epoch or earlier.
    pub late_older: u64,
    /// 1 while the ended epoch is to be taken.
    pub untaken: u64,
    /// The arrivals of the ended epoch.
    pub arrived: u64,
    /// 1 once no visit of the ended epoch is open.
    pub sealed: u64,
    /// How many words of the ended epoch were cleared.
    pub cleared: u64,
    /// How often the leaves were looked at; of a pass how often it looked at the gate without an event.
    pub looks: u64,
    /// The count that the last look saw; of a pass the epoch.
    pub seen: u64,
}

/// The view of a seat: the keeper's, that of a pass that is out, or that of a seat that is spent.
#[derive(Drop)]
pub struct View {
    /// Whether it is the keeper's.
    pub keeps: bool,
    /// 1 at a pass that is out, else 0.
    pub lives: u64,
    /// The epoch at its hiring.
    pub since: u64,
    /// How many events it may count.
    pub quota: u64,
    /// The epoch of its open visit.
    pub arrival: u64,
    /// How many events arrived with the open visit; 0 where none is open.
    pub count: u64,
    /// What the open visit has laid into words, the newest first.
    pub parts: LinkedList<Part>,
    /// Its entries; the keeper has those of the passes that it met.
    pub entries: LinkedList<Entry>,
    /// The keeper's numbers; a pass has those of its looks.
    pub numbers: Numbers,
    /// What the keeper found in the words of the ended epoch, the newest first.
    pub told: LinkedList<Part>,
    /// What the keeper took, in order.
    pub taken: LinkedList<Taken>,
}
