//! The steps that each document's reading is made of.
ghost use Rattle.std.specs.Prelude.{◌≡◌, ◌≤◌, ℕ, List, Bool, true, Option, if◌then◌else◌, length, map, bytes_eq};
ghost use Rattle.std.specs.Cmp.Lexicographic.{pointwise};
ghost use Rattle.serde_json.specs.Find.{as_str};
ghost use Rattle.serde_json.specs.View.{view, members_view};
ghost use Rattle.pm_form.specs.Form.{json_of};
ghost use Rattle.pm_form.specs.Values.{of_type, fixed, flag, whole, whole_or_null};
ghost use Rattle.pm_form.specs.Lists.{items_at};
ghost use Rattle.pm_form.specs.Objects.{values_at, keys_of};
ghost use Rattle.pm_form.specs.Says.{Says};

use crate::{ReadError, Refusal};
use pm_base::Text;
use serde_json::{Map, Value};
use std::alloc::Global;
use std::collections::btree_map::Values;

/// The tree of a JSON text.
pub fn json_tree(alloc: Global, bytes: &[u8]) -> Result<Value, ReadError>
    ensures { Says result view (json_of bytes.now) }
{
    match Value::from_slice(alloc, bytes) {
        Ok(value) => Ok(value),
        Err(error) => {
            if error.is_memory() {
                Err(ReadError::Memory)
            } else {
                Err(ReadError::Refused(Refusal::NotJson))
            }
        }
    }
}

fn has_keys(members: &Map<String, Value>, keys: &[&str]) -> bool
    ensures { result ≡ pointwise bytes_eq (keys_of (members_view members.now.entries)) (map (λ k. k.now) keys.now) }
{
    let mut names = members.keys();
    for key in keys {
        match names.next() {
            Some(name) if name.as_str() == *key => {}
            _ => return false,
        }
    }
    names.next().is_none()
}

/// The values of an object with exactly these keys.
pub fn values_of<'v>(
    value: &'v Value,
    keys: &[&str],
) -> Result<Values<'v, String, Value>, ReadError>
    ensures { Says result (map view) (values_at (map (λ k. k.now) keys.now) (view value.now)) }
{
    let Some(members) = value.as_object() else {
        return Err(ReadError::Refused(Refusal::WrongType));
    };
    if !has_keys(members, keys) {
        return Err(ReadError::Refused(Refusal::WrongKeys));
    }
    Ok(members.values())
}

/// The items of an array.
pub fn items_of(value: &Value) -> Result<&[Value], ReadError>
    ensures { Says result (λ l. map view l.now) (items_at (view value.now)) }
{
    match value.as_array() {
        Some(list) => Ok(list.as_slice()),
        None => Err(ReadError::Refused(Refusal::WrongType)),
    }
}

/// The bytes of a string.
pub fn text_in(value: &Value) -> Result<&[u8], ReadError>
    ensures { Says result (λ s. s.now) (of_type (as_str (view value.now))) }
{
    match value.as_str() {
        Some(text) => Ok(text.as_bytes()),
        None => Err(ReadError::Refused(Refusal::WrongType)),
    }
}

/// A copy of a text that passed its test.
pub fn copied_if(alloc: Global, text: &[u8], passes: bool) -> Result<Text, ReadError>
    requires { passes ≡ true → length text.now ≤ 65535 }
    ensures { Says result (λ (s : List ℕ). s) (if passes then Ok text.now else Err Refusal.WrongType) }
{
    if !passes {
        return Err(ReadError::Refused(Refusal::WrongType));
    }
    match Text::from_slice(alloc, text) {
        Ok(text) => Ok(text),
        Err(_) => Err(ReadError::Memory),
    }
}

/// Sees that the value is this one string.
pub fn fixed_in(value: &Value, word: &str) -> Result<(), ReadError>
    ensures { Says result (λ u. u) ((fixed word.now).reads (view value.now)) }
{
    match value.as_str() {
        Some(text) if text == word => Ok(()),
        _ => Err(ReadError::Refused(Refusal::WrongType)),
    }
}

/// True or false.
pub fn flag_in(value: &Value) -> Result<bool, ReadError>
    ensures { Says result (λ (b : Bool). b) (flag.reads (view value.now)) }
{
    match value.as_bool() {
        Some(flag) => Ok(flag),
        None => Err(ReadError::Refused(Refusal::WrongType)),
    }
}

/// A whole number of at most `most`.
pub fn whole_in(value: &Value, most: u64) -> Result<u64, ReadError>
    ensures { Says result (λ (n : ℕ). n) ((whole most).reads (view value.now)) }
{
    if !value.is_number() {
        return Err(ReadError::Refused(Refusal::WrongType));
    }
    match value.as_u64() {
        Some(n) if n <= most => Ok(n),
        _ => Err(ReadError::Refused(Refusal::WrongNumber)),
    }
}

/// Null, or any number of the program.
pub fn whole_or_null_in(value: &Value) -> Result<Option<u64>, ReadError>
    ensures { Says result (λ (n : Option ℕ). n) ((whole_or_null 18446744073709551615).reads (view value.now)) }
{
    if value.is_null() {
        return Ok(None);
    }
    if !value.is_number() {
        return Err(ReadError::Refused(Refusal::WrongType));
    }
    match value.as_u64() {
        Some(n) => Ok(Some(n)),
        None => Err(ReadError::Refused(Refusal::WrongNumber)),
    }
}
