//! The cursors of subscriptions.
ghost use Rattle.std.specs.Prelude.{◌≡◌, length};

use std::marker::Model;

/// Up to which notice each subscription is served, in byte order of ids, seen by contracts as the list of these numbers.
#[derive(Debug, Drop)]
pub struct Cursors {
    cursors: Vec<u64>,
}

impl Model for Cursors {
    ghost use Rattle.std.specs.Prelude.{ℕ, List};

    ghost Value = { List ℕ };

    ghost view = { λ c. c.cursors.items };
}

impl Cursors {
    /// The list of these numbers. It takes no memory.
    pub fn from_vec(cursors: Vec<u64>) -> Cursors
        ensures { result ≡ cursors.items }
    {
        Cursors { cursors }
    }

    /// The numbers.
    pub fn as_slice(&self) -> &[u64]
        ensures { result.now ≡ self.now }
    {
        self.cursors.as_slice()
    }

    /// How many there are.
    pub fn len(&self) -> usize
        ensures { result ≡ length self.now }
    {
        self.cursors.len()
    }
}
