//! A file and its name as they are stored.
//!
//!     bytes  what
//!     1      the kind, which is 1
//!     1      the length of the name
//!     n      the name
//!     4      the length of the file, the greatest byte first
//!     m      the file
ghost use Rattle.std.specs.Prelude.{◌≡◌, ◌≤◌, ◌<◌, ◌^◌, ◌∷◌, ◌++◌, ℕ, List, length, IfOk, OnOk, MatchOption};
ghost use Rattle.pm_journal.specs.Items.{size_bytes};
ghost use Rattle.pm_collect.specs.Stored.{item_of, IsItem, IsNoItem};

use std::alloc::{AllocError, Global};

const KIND: u8 = 1;

// The most bytes of a file.
const MOST_TEXT: usize = 4294967295;

/// The item of a file under this name.
pub fn item_bytes(alloc: Global, name: &[u8], text: &[u8]) -> Result<Vec<u8>, AllocError>
    requires name { length name.now ≤ 255 }
    requires text { length text.now < 2 ^ 32 }
    ensures { IfOk result (λ item. item.items ≡ item_of (record { name = name.now; text = text.now })) }
{
    let mut item = Vec::new(alloc);
    item.push(KIND)?;
    item.push(name.len() as u8)?;
    item.extend_from_slice(name)?;
    item.extend_from_slice(&bytes_of_size(text.len() as u32))?;
    item.extend_from_slice(text)?;
    Ok(item)
}

/// The name and the file of an item.
pub fn split_item(bytes: &[u8]) -> Option<(&[u8], &[u8])>
    ensures { MatchOption result (IsNoItem bytes.now) (λ p. IsItem bytes.now (record { name = p.0.now; text = p.1.now })) }
{
    match bytes {
        [KIND, rest @ ..] => split_fields(rest),
        _ => None,
    }
}

// The name and the file behind the kind.
fn split_fields(bytes: &[u8]) -> Option<(&[u8], &[u8])>
    ensures { MatchOption result (IsNoItem (1 ∷ bytes.now)) (λ p. IsItem (1 ∷ bytes.now) (record { name = p.0.now; text = p.1.now })) }
{
    let Some((name, rest)) = split_name(bytes) else {
        return None;
    };
    let Some(text) = split_text(rest) else {
        return None;
    };
    Some((name, text))
}

// What a byte tells the length of, and what comes behind it.
fn split_name(bytes: &[u8]) -> Option<(&[u8], &[u8])>
    ensures { MatchOption result ((name rest : List ℕ) → bytes.now ≡ length name ∷ name ++ rest → ⊥) (λ p. (bytes.now ≡ length p.0.now ∷ p.0.now ++ p.1.now) × (length p.0.now ≤ 255)) }
{
    let (count, rest) = bytes.split_first()?;
    let count = *count as usize;
    if count > rest.len() {
        return None;
    }
    Some(rest.split_at(count))
}

// What is behind four bytes that tell its length.
fn split_text(bytes: &[u8]) -> Option<&[u8]>
    ensures { MatchOption result ((text : List ℕ) → length text < 2 ^ 32 → bytes.now ≡ size_bytes (length text) ++ text → ⊥) (λ text. (bytes.now ≡ size_bytes (length text.now) ++ text.now) × (length text.now < 2 ^ 32)) }
{
    if bytes.len() < 4 {
        return None;
    }
    let (size, text) = bytes.split_at(4);
    if text.len() > MOST_TEXT {
        return None;
    }
    if size == bytes_of_size(text.len() as u32).as_slice() {
        Some(text)
    } else {
        None
    }
}

// A length in four bytes, the greatest first.
fn bytes_of_size(n: u32) -> [u8; 4]
    ensures { result ≡ size_bytes n }
{
    n.to_be_bytes()
}
