//! The items of a history: what a store keeps of it, and what follows from the items alone.
#![tactic(auto)]

mod law;

pub use law::{
    boots_store_none, cursors_bounded, cursors_stay, items_tell, kept_begins, kept_grows,
    kept_is_kept, last_item, places_untold, prefixes_kept, same_all_permitted, same_cursors,
    same_items, same_last_cut, same_permitted, same_sequences, same_subscriptions,
    unstored_changes_nothing, unstored_in_tick,
};
