//! What the crates of the product make of a history: each entry is a request on jobs, monitors and a closer.
use crate::stop::Stop;
use crate::telling::Told;
use pm_base::{LAST_MOMENT, tick};
use pm_close::{Closer, are_small};
use pm_history::Entry;
use pm_inventory::Inventory;
use pm_jobs::{Ask, JobError, Jobs, Outcome, Side};
use pm_meas::{Cell, MAX_COUNT, MAX_VALUE, Tally};
use pm_ready::{FileQuery, ReadyFile, ReadyFiles};
use std::alloc::Global;

/// Jobs, monitors and a closer, with the cells of the open tick, the files that are kept, and what was told so far.
#[derive(Drop)]
pub(crate) struct Closing {
    jobs: Jobs,
    closer: Closer,
    cells: Tally,
    files: ReadyFiles,
    told: Told,
}

// A request on a job or a monitor: whether it changes something.
fn change(
    alloc: Global,
    inventory: &Inventory,
    closer: &mut Closer,
    jobs: &mut Jobs,
    moment: u64,
    side: Side,
    ask: &Ask,
) -> Result<bool, Stop> {
    let plan = match jobs.plan(inventory, moment, side, ask) {
        Ok(plan) => plan,
        Err(JobError::Memory) => return Err(Stop::Memory),
        Err(_) => return Ok(false),
    };
    if closer.count(Side::Job) != jobs.count(Side::Job) as usize {
        return Err(Stop::Broken);
    }
    if closer.count(Side::Monitor) != jobs.count(Side::Monitor) as usize {
        return Err(Stop::Broken);
    }
    if closer.slots() != inventory.slots() as usize {
        return Err(Stop::Broken);
    }
    let made = closer.prepare(alloc, inventory, &plan)?;
    closer.follow(inventory, jobs, &plan, made);
    match jobs.enact(plan) {
        Outcome::New | Outcome::Changed | Outcome::Deleted => Ok(true),
        Outcome::Same | Outcome::Already => Ok(false),
    }
}

// Tells what ends with a request in a later tick, or with a start of the program, and enacts it.
fn end(
    alloc: Global,
    inventory: &Inventory,
    closer: &mut Closer,
    jobs: &Jobs,
    row: &[Cell],
    moment: u64,
    boot: bool,
    told: &mut Told,
) -> Result<Vec<ReadyFile>, Stop> {
    if closer.count(Side::Job) != jobs.count(Side::Job) as usize {
        return Err(Stop::Broken);
    }
    if closer.count(Side::Monitor) != jobs.count(Side::Monitor) as usize {
        return Err(Stop::Broken);
    }
    if row.len() != closer.slots() {
        return Err(Stop::Broken);
    }
    if !are_small(row) {
        return Err(Stop::Broken);
    }
    let until = tick(moment);
    if moment > LAST_MOMENT || closer.tick() > until || (!boot && closer.tick() == until) {
        return Err(Stop::Broken);
    }
    let first = closer.tick();
    let booking = closer.book(alloc, jobs, row, moment, boot)?;
    let new = told.ended(alloc, inventory, closer, jobs, first, &booking)?;
    closer.enact(booking);
    Ok(new)
}

fn keep(files: &mut ReadyFiles, moment: u64, new: Vec<ReadyFile>) -> Result<(), Stop> {
    files.reserve(new.len())?;
    files.step(moment, new);
    Ok(())
}

fn count(cells: &mut Tally, slot: u16, value: u32) -> Result<(), Stop> {
    let slot = u32::from(slot);
    if slot >= cells.len() || value > MAX_VALUE {
        return Err(Stop::Broken);
    }
    let cell = cells.get(slot);
    if cell.n >= MAX_COUNT || cell.sum > cell.n * u64::from(MAX_VALUE) {
        return Err(Stop::Broken);
    }
    cells.add(slot, value);
    Ok(())
}

impl Closing {
    pub(crate) fn new(alloc: Global, inventory: &Inventory) -> Result<Closing, Stop> {
        Ok(Closing {
            jobs: Jobs::new(alloc),
            closer: Closer::new(alloc, inventory)?,
            cells: Tally::new(alloc, u32::from(inventory.slots()))?,
            files: ReadyFiles::new(alloc),
            told: Told::new(alloc),
        })
    }

    // Ends the open tick and those after it, up to this moment.
    fn end(
        &mut self,
        alloc: Global,
        inventory: &Inventory,
        moment: u64,
        boot: bool,
    ) -> Result<(), Stop> {
        let new = end(
            alloc,
            inventory,
            &mut self.closer,
            &self.jobs,
            self.cells.cells(),
            moment,
            boot,
            &mut self.told,
        )?;
        self.cells.clear();
        keep(&mut self.files, moment, new)
    }

    /// A request on a job or a monitor: whether it changes something.
    pub(crate) fn change(
        &mut self,
        alloc: Global,
        inventory: &Inventory,
        moment: u64,
        side: Side,
        ask: &Ask,
    ) -> Result<bool, Stop> {
        change(
            alloc,
            inventory,
            &mut self.closer,
            &mut self.jobs,
            moment,
            side,
            ask,
        )
    }

    // Asks for a state.
    fn set(
        &mut self,
        alloc: Global,
        inventory: &Inventory,
        moment: u64,
        side: Side,
        id: &[u8],
        unlocked: bool,
    ) -> Result<bool, Stop> {
        let body: &[u8] = if unlocked {
            br#"{"administrativeState":"UNLOCKED"}"#
        } else {
            br#"{"administrativeState":"LOCKED"}"#
        };
        self.change(alloc, inventory, moment, side, &Ask::State { id, body })
    }

    /// Takes what an entry asks for. Answers whether it is an entry: a request on a job or a monitor that is refused or
    /// changes nothing is none.
    pub(crate) fn take(
        &mut self,
        alloc: Global,
        inventory: &Inventory,
        entry: &Entry,
    ) -> Result<bool, Stop> {
        match entry {
            Entry::Boot { moment } => self.end(alloc, inventory, *moment, true)?,
            Entry::Now { moment } => {
                if tick(*moment) > self.closer.tick() {
                    self.end(alloc, inventory, *moment, false)?;
                }
            }
            Entry::Event {
                object,
                metric,
                value,
                registered,
                ..
            } => {
                if let Some(slot) = inventory.slot(*object, *metric)
                    && *registered
                {
                    count(&mut self.cells, slot, *value)?;
                }
            }
            Entry::JobMade { moment, id, body } => {
                let ask = Ask::Create {
                    id: id.as_bytes(),
                    body: body.as_bytes(),
                };
                return self.change(alloc, inventory, *moment, Side::Job, &ask);
            }
            Entry::MonitorMade { moment, id, body } => {
                let ask = Ask::Create {
                    id: id.as_bytes(),
                    body: body.as_bytes(),
                };
                return self.change(alloc, inventory, *moment, Side::Monitor, &ask);
            }
            Entry::JobState {
                moment,
                id,
                unlocked,
            } => {
                return self.set(
                    alloc,
                    inventory,
                    *moment,
                    Side::Job,
                    id.as_bytes(),
                    *unlocked,
                );
            }
            Entry::MonitorState {
                moment,
                id,
                unlocked,
            } => {
                return self.set(
                    alloc,
                    inventory,
                    *moment,
                    Side::Monitor,
                    id.as_bytes(),
                    *unlocked,
                );
            }
            Entry::JobDeleted { moment, id } => {
                let ask = Ask::Delete { id: id.as_bytes() };
                return self.change(alloc, inventory, *moment, Side::Job, &ask);
            }
            Entry::MonitorDeleted { moment, id } => {
                let ask = Ask::Delete { id: id.as_bytes() };
                return self.change(alloc, inventory, *moment, Side::Monitor, &ask);
            }
            Entry::Subscribed { .. } | Entry::Unsubscribed { .. } => {}
        }
        Ok(true)
    }

    /// The listing of the files that are kept.
    pub(crate) fn listing(&self, alloc: Global) -> Result<Vec<u8>, Stop> {
        let query = FileQuery {
            performance: None,
            begin: None,
            end: None,
        };
        let listing = self.files.listing(alloc, &query)?;
        Ok(Vec::from_slice(alloc, listing.as_bytes())?)
    }

    /// The text of a file that is kept under a name.
    pub(crate) fn find(&self, alloc: Global, name: &[u8]) -> Result<Option<&[u8]>, Stop> {
        Ok(self.files.find(alloc, name)?)
    }

    /// The lines of the notices so far.
    pub(crate) fn lines(&self, alloc: Global) -> Result<Vec<u8>, Stop> {
        self.told.lines(alloc)
    }
}
