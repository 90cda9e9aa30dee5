//! The values of a body's keys.
ghost use Rattle.std.specs.Prelude.{◌≡◌, ◌≤◌, map, string_bytes, IfOk, IfSome, bytes_eq, option_map};
ghost use Rattle.std.specs.List.{list_any, list_all};
ghost use Rattle.std.specs.BTreeMap.{keys};
ghost use Rattle.serde_json.specs.Find.{get_member, as_array};
ghost use Rattle.serde_json.specs.View.{view, items_view, members_view};
ghost use Rattle.pm_asked.specs.Body.{MOST_PERIOD};
ghost use Rattle.pm_asked.specs.BodyReading.{has_only, tree_of, number_of, texts_of, list_of, state_of, state_in, names_in, metrics_in, number_in};
ghost use Rattle.pm_jobs.specs.Content.{is_unlocked, texts};
ghost use Rattle.pm_jobs.specs.Fields.{members_in, is_object_with};

use crate::State;
use pm_form::{ReadError, json_tree};
use serde_json::{Map, Value};
use std::alloc::{AllocError, Global};

const MAX_NAMED: usize = 256;

const MAX_METRICS: usize = 64;

/// The tree of a text; none of bytes that are no JSON text.
pub(crate) fn tree_in(alloc: Global, bytes: &[u8]) -> Result<Option<Value>, AllocError>
    ensures { IfOk result (λ o. option_map view o ≡ tree_of bytes.now) }
{
    match json_tree(alloc, bytes) {
        Ok(tree) => Ok(Some(tree)),
        Err(ReadError::Refused(_)) => Ok(None),
        Err(ReadError::Memory) => Err(AllocError),
    }
}

fn is_among(name: &str, known: &[&str]) -> bool
    ensures { result ≡ list_any (bytes_eq name.now) (map (λ k. k.now) known.now) }
{
    for key in known {
        if name == *key {
            return true;
        }
    }
    false
}

fn are_among(members: &Map<String, Value>, known: &[&str]) -> bool
    ensures { result ≡ list_all (λ k. list_any (bytes_eq (string_bytes k)) (map (λ k. k.now) known.now)) (keys members.now) }
{
    members.keys().all(|name| is_among(name.as_str(), known))
}

/// Whether a tree is an object without other keys than these.
pub(crate) fn is_object_of(tree: &Value, known: &[&str]) -> bool
    ensures { result ≡ is_object_with (map (λ k. k.now) known.now) (view tree.now) }
{
    match tree.as_object() {
        Some(members) => are_among(members, known),
        None => false,
    }
}

/// The value of a key.
pub(crate) fn value_at<'v>(tree: &'v Value, key: &str) -> Option<&'v Value>
    ensures { option_map (λ v. view v.now) result ≡ get_member key.now (members_in (view tree.now)) }
{
    tree.get(key)
}

/// A whole number of at most `most`.
pub(crate) fn whole_of(value: &Value, most: u64) -> Option<u64>
    ensures value { result ≡ number_of most (view value.now) }
    ensures most { IfSome result (λ n. n ≤ most) }
{
    match value.as_u64() {
        Some(n) if n <= most => Some(n),
        _ => None,
    }
}

/// The number of a key that may not lack.
pub(crate) fn whole_at(tree: &Value, key: &str, most: u64) -> Option<u64>
    ensures value { result ≡ number_in most key.now (members_in (view tree.now)) }
    ensures most { IfSome result (λ n. n ≤ most) }
{
    match value_at(tree, key) {
        Some(value) => whole_of(value, most),
        None => None,
    }
}

/// A period, in its unit.
pub(crate) fn period_at(tree: &Value, key: &str) -> Option<u32>
    ensures { result ≡ number_in MOST_PERIOD key.now (members_in (view tree.now)) }
{
    match whole_at(tree, key, u64::from(u32::MAX)) {
        Some(n) => Some(n as u32),
        None => None,
    }
}

/// The state that a string says.
pub(crate) fn state_from(value: &Value) -> Option<State>
    ensures { option_map is_unlocked result ≡ state_of (view value.now) }
{
    match value.as_str() {
        Some("UNLOCKED") => Some(State::Unlocked),
        Some("LOCKED") => Some(State::Locked),
        _ => None,
    }
}

/// The state, which is UNLOCKED where its key lacks.
pub(crate) fn state_at(tree: &Value) -> Option<State>
    ensures { option_map is_unlocked result ≡ state_in (members_in (view tree.now)) }
{
    match value_at(tree, "administrativeState") {
        Some(value) => state_from(value),
        None => Some(State::Unlocked),
    }
}

fn copied_texts(alloc: Global, items: &[Value]) -> Result<Option<Vec<String>>, AllocError>
    ensures { IfOk result (λ o. option_map texts o ≡ texts_of (items_view items.now)) }
{
    let mut copied = Vec::new(alloc);
    for item in items {
        let Some(text) = item.as_str() else {
            return Ok(None);
        };
        let text = String::from_str(alloc, text)?;
        if copied.push(text).is_err() {
            return Err(AllocError);
        }
    }
    Ok(Some(copied))
}

/// The items of an array.
pub(crate) fn items_from(value: &Value) -> Option<&[Value]>
    ensures { option_map (λ items. items_view items.now) result ≡ as_array (view value.now) }
{
    match value.as_array() {
        Some(items) => Some(items.as_slice()),
        None => None,
    }
}

fn texts_from(
    alloc: Global,
    value: &Value,
    least: usize,
    most: usize,
) -> Result<Option<Vec<String>>, AllocError>
    ensures { IfOk result (λ o. option_map texts o ≡ list_of least most (view value.now)) }
{
    let Some(items) = items_from(value) else {
        return Ok(None);
    };
    if items.len() < least || most < items.len() {
        return Ok(None);
    }
    copied_texts(alloc, items)
}

/// The names of a key; none where it lacks.
pub(crate) fn names_at(
    alloc: Global,
    tree: &Value,
    key: &str,
) -> Result<Option<Vec<String>>, AllocError>
    ensures { IfOk result (λ o. option_map texts o ≡ names_in key.now (members_in (view tree.now))) }
{
    match value_at(tree, key) {
        Some(value) => texts_from(alloc, value, 0, MAX_NAMED),
        None => Ok(Some(Vec::new(alloc))),
    }
}

/// The names and families of measurements.
pub(crate) fn metrics_at(alloc: Global, tree: &Value) -> Result<Option<Vec<String>>, AllocError>
    ensures { IfOk result (λ o. option_map texts o ≡ metrics_in (members_in (view tree.now))) }
{
    match value_at(tree, "performanceMetrics") {
        Some(value) => texts_from(alloc, value, 1, MAX_METRICS),
        None => Ok(None),
    }
}
