//! A table that guesses an object's number from its name. What it says is never trusted: who asks compares.

use std::alloc::{AllocError, Global};

/// Places of the table, a power of two of four times the greatest number of objects.
pub(crate) const PLACES: usize = 1024;

/// Numbers of objects, each at the first free place from its name's hash on.
#[derive(Debug, Drop)]
pub(crate) struct Places {
    // The number and one more; 0 is a free place.
    numbers: Vec<u16>,
}

const MULTIPLIER: u64 = 0x9e37_79b9_7f4a_7c15;

// The halves of the product, one upon the other.
fn folded(a: u64, b: u64) -> u64 {
    let product = a as u128 * b as u128;
    (product & 0xffff_ffff_ffff_ffff) as u64 ^ (product >> 64) as u64
}

/// A hash of the bytes, eight at a time; the last eight overlap those before.
#[inline]
pub(crate) fn hash_of(bytes: &[u8]) -> u64 {
    let mut state = bytes.len() as u64;
    let (words, _) = bytes.as_chunks::<8>();
    for word in words {
        state = folded(state ^ u64::from_le_bytes(*word), MULTIPLIER);
    }
    match bytes.last_chunk::<8>() {
        Some(word) => folded(state ^ u64::from_le_bytes(*word), MULTIPLIER),
        None => bytes.iter().fold(
            state,
            |state, byte| folded(state ^ u64::from(*byte), MULTIPLIER),
        ),
    }
}

impl Places {
    /// The table without places. It takes no memory.
    pub(crate) fn new(alloc: Global) -> Places {
        Places {
            numbers: Vec::new(alloc),
        }
    }

    /// Sees that the places are there.
    pub(crate) fn prepare(&mut self, alloc: Global) -> Result<(), AllocError> {
        if self.numbers.is_empty() {
            self.numbers = vec![in alloc; 0u16; PLACES]?;
        }
        Ok(())
    }

    /// The number at a place, counted on from a hash.
    #[inline]
    pub(crate) fn number_at(&self, hash: u64, step: u64) -> Option<u16> {
        let place = hash.wrapping_add(step) as usize % PLACES;
        self.numbers.get(place)?.checked_sub(1)
    }

    /// Notes a number at the first free place from its name's hash on.
    pub(crate) fn note(&mut self, hash: u64, number: u16) {
        for step in 0..PLACES as u64 {
            let place = hash.wrapping_add(step) as usize % PLACES;
            if let Some(entry) = self.numbers.get_mut(place)
                && *entry == 0
            {
                *entry = number.wrapping_add(1);
                return;
            }
        }
    }
}
