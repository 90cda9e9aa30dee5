//! A table that guesses a slot's number from its names. What it says is never trusted: who asks compares.

use std::alloc::{AllocError, Global};

/// Places of the table, a power of two of four times the greatest number of slots.
pub(crate) const PLACES: usize = 16_384;

/// Numbers of slots, each at the first free place from its names' hash on.
#[derive(Debug, Drop)]
pub(crate) struct SlotPlaces {
    // The number and one more; 0 is a free place.
    numbers: Vec<u16>,
}

impl SlotPlaces {
    /// The table without slots.
    pub(crate) fn new(alloc: Global) -> Result<SlotPlaces, AllocError> {
        Ok(SlotPlaces {
            numbers: vec![in alloc; 0u16; PLACES]?,
        })
    }

    /// The number at a place, counted on from a hash.
    #[inline(always)]
    pub(crate) fn number_at(&self, hash: u64, step: u64) -> Option<u16> {
        let place = hash.wrapping_add(step) as usize % PLACES;
        self.numbers.get(place)?.checked_sub(1)
    }

    /// Notes a number at the first free place from its names' hash on.
    pub(crate) fn note(&mut self, hash: u64, number: u16) {
        for step in 0..PLACES as u64 {
            let place = hash.wrapping_add(step) as usize % PLACES;
            if let Some(entry) = self.numbers.get_mut(place)
                && *entry == 0
            {
                *entry = number.wrapping_add(1);
                return;
            }
        }
    }
}
