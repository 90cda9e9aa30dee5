//! A byte string of at most 65,535 bytes.
ghost use Rattle.std.specs.Prelude.{◌≡◌, ◌≤◌, ◌==◌, [], length, vec_len, IfOk};

use std::alloc::{AllocError, Global};
use std::marker::Model;

/// The bytes of a name, a path or another short text, seen by contracts as the list of its bytes.
#[derive(Debug, Drop)]
pub struct Text {
    bytes: Vec<u8>,
}

impl Model for Text {
    ghost use Rattle.std.specs.Prelude.{ℕ, List, length, ◌≤◌};

    ghost Value = { List ℕ };

    ghost view = { λ t. t.bytes.items };

    ghost invariant = { λ t. length t.bytes.items ≤ 65535 };
}

impl Text {
    /// The most bytes that a text has.
    pub const MOST: usize = 65_535;

    /// The text without bytes. It takes no memory.
    pub fn new(alloc: Global) -> Text
        ensures { result ≡ [] }
    {
        Text {
            bytes: Vec::new(alloc),
        }
    }

    /// The text of these bytes, at most 65,535 of them. It takes no memory.
    pub fn from_vec(bytes: Vec<u8>) -> Text
        requires { vec_len bytes ≤ 65535 }
        ensures { result ≡ bytes.items }
    {
        Text { bytes }
    }

    /// A copy of these bytes, at most 65,535 of them.
    pub fn from_slice(alloc: Global, bytes: &[u8]) -> Result<Text, AllocError>
        requires { length bytes.now ≤ 65535 }
        ensures { IfOk result (λ text. text ≡ bytes.now) }
    {
        let bytes = Vec::from_slice(alloc, bytes)?;
        Ok(Text { bytes })
    }

    /// The bytes.
    pub fn as_bytes(&self) -> &[u8]
        ensures value { result.now ≡ self.now }
        ensures short { length self.now ≤ 65535 }
    {
        self.bytes.as_slice()
    }

    /// How many bytes it has.
    pub fn len(&self) -> usize
        ensures value { result ≡ length self.now }
        ensures short { result ≤ 65535 }
    {
        self.bytes.len()
    }

    /// Whether it has no byte.
    pub fn is_empty(&self) -> bool
        ensures { result ≡ (length self.now == 0) }
    {
        self.bytes.is_empty()
    }

    /// The bytes, given back without memory.
    pub fn into_vec(self) -> Vec<u8>
        ensures value { result.items ≡ self }
        ensures short { vec_len result ≤ 65535 }
    {
        let Text { bytes } = self;
        bytes
    }
}
