//! The words that a bank's threads share.
ghost use Rattle.std.specs.Prelude.{◌≡◌, ℕ, ◌+◌, ◌*◌, ◌<◌, ◌≤◌, ◌⊎◌, ◌↔◌, length, slice_index, replicate, IfOk};
ghost use Rattle.pm_bank.specs.Words.{cell_word, close};
ghost use Rattle.pm_bank.specs.Views.{new_keeper_view};

use crate::error::BankError;
use crate::keeper::Keeper;
use crate::plays::Counters;
use std::alloc::{AllocError, Global};
use std::marker::Model;

/// The most slots of a bank.
pub const MAX_SLOTS: u32 = 4_096;

/// The most passes that may be out at a time.
pub const MAX_WORKERS: u32 = 64;

/// Counters for each slot, twice: one half serves the even epochs, the other the odd ones.
#[derive(Drop)]
pub struct Bank {
    pub(crate) table: Counters,
    slots: u32,
}

impl Model for Bank {
    ghost use Rattle.std.specs.Prelude.{◌≡◌, ◌+◌, ◌*◌, ◌≤◌};
    ghost use Rattle.pm_bank.specs.Views.{BankView};
    ghost use Rattle.pm_bank.specs.declared.bank.TheConstants.{MAX_SLOTS};

    ghost Value = { BankView };

    ghost view = { λ b. record { id = b.table.shared.table_id; slots = b.slots } };

    ghost invariant = { λ b. (b.table.shared.key ≡ b.slots) × (b.table.shared.table_id.words ≡ 8 + 8 * b.slots) × (b.slots ≤ MAX_SLOTS) };
}

impl Bank {
    /// A bank with its keeper, at epoch 0 and with no event. At most so many `workers` have a pass at a time.
    pub fn new(alloc: Global, slots: u32, workers: u32) -> Result<(Bank, Keeper), BankError>
        ensures made { IfOk result (λ r. (r.0.slots ≡ slots) × (r.1 ≡ new_keeper_view r.0.id workers)) }
        ensures b1 { (result ≡ Err BankError.B1) ↔ ((slots ≡ 0) ⊎ (MAX_SLOTS < slots)) }
        ensures b2 { (result ≡ Err BankError.B2) ↔ ((0 < slots) × (slots ≤ MAX_SLOTS) × ((workers ≡ 0) ⊎ (MAX_WORKERS < workers))) }
    {
        if slots == 0 || slots > MAX_SLOTS {
            return Err(BankError::B1);
        }
        if workers == 0 || workers > MAX_WORKERS {
            return Err(BankError::B2);
        }
        let Ok(words) = blank_words(alloc, slots) else {
            return Err(BankError::Memory);
        };
        let Ok((table, seat)) = Counters::of_words(alloc, words.as_slice(), &(slots as u64)) else {
            return Err(BankError::Memory);
        };
        Ok((Bank { table, slots }, Keeper::start(seat, workers)))
    }
}

/// The words of a bank with no event. The least of no value is the greatest number.
fn blank_words(alloc: Global, slots: u32) -> Result<Vec<u64>, AllocError>
    requires slots { slots ≤ MAX_SLOTS }
    ensures size { IfOk result (λ words. length words.items ≡ 8 + 8 * slots) }
    ensures heads { IfOk result (λ words. (i : ℕ) → i < 8 → slice_index words.items i ≡ 0) }
    ensures blank { IfOk result (λ words. (k s e : ℕ) → k < 4 → s < slots → slice_index words.items (cell_word e k s) ≡ close k 0) }
{
    let mut words = vec![in alloc; 0u64; 8 + 8 * slots as usize]?;
    for s in 0..slots as usize {
        words[8 * s + 11] = 4_294_967_295;
        words[8 * s + 15] = 4_294_967_295;
    }
    Ok(words)
}
