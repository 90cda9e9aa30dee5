//! Forms of JSON documents: a value, the tree that says it, and the first refusal of any other tree.
#![tactic(auto)]

mod law;
mod names;
mod read;
mod refusal;
#[cfg(test)]
mod tests;
mod write;

pub use law::values_are_exact;
pub use names::{
    class_word_in, is_class_word, is_dn_id, is_job_id, is_measure_name, job_id_in, measure_name_in,
};
pub use read::{
    copied_if, fixed_in, flag_in, items_of, json_tree, text_in, values_of, whole_in,
    whole_or_null_in,
};
pub use refusal::{ReadError, Refusal};
pub use write::{text_token, whole_or_null_token};
