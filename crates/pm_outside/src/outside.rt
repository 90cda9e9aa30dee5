//! A source of bytes and a sink for bytes, each with a count of its faults.
//!
//! Content is told per type: the clauses on content hold where `IsTold` does, which is so for the implementations in
//! memory and for no real file, socket or terminal. The clauses on faults hold for all.
ghost use Rattle.std.specs.Prelude.{◌≡◌, List, ℕ};
ghost use Rattle.std.specs.Io.{ReadsAtMost};
ghost use Rattle.std.specs.Result.{is_err};
ghost use Rattle.pm_outside.specs.Causes.{faults_after};
ghost use Rattle.pm_outside.specs.Outside.{Gives, Takes};

use thiserror::Error;

/// An object of the outside failed, and counted one fault.
#[derive(Clone, Copy, Debug, PartialEq, Eq, Error)]
#[error("an object outside the program failed")]
pub struct Failed;

/// A source of bytes, as a file, a connection or the standard input.
pub trait Source {
    /// Whether sources of this type tell what they have left.
    ghost IsTold: { Type 0 };

    /// The bytes that are left, first to last.
    ghost left: { Self → List ℕ };

    /// How often it has failed, up to 18,446,744,073,709,551,615.
    ghost faults: { Self → ℕ };

    /// Moves the first bytes that are left into the front of the buffer, and answers how many: none only at the end or
    /// into a buffer without room. A read that fails moves none.
    fn read(&mut self, buf: &mut [u8]) -> Result<usize, Failed>
        ensures bound { ReadsAtMost result buf.new }
        ensures told { IsTold → Gives (left self.old) (left self.new) result buf.new }
        ensures counted { faults self.new ≡ faults_after (is_err result) (faults self.old) };
}

/// A sink for bytes, as a file, a connection or the standard output.
pub trait Sink {
    /// Whether sinks of this type tell what was written to them.
    ghost IsTold: { Type 0 };

    /// The bytes written, first to last.
    ghost written: { Self → List ℕ };

    /// How often it has failed, up to 18,446,744,073,709,551,615.
    ghost faults: { Self → ℕ };

    /// Appends all of the bytes. A call that fails has appended some of the first of them, maybe none.
    fn put(&mut self, bytes: &[u8]) -> Result<(), Failed>
        ensures told { IsTold → Takes (written self.old) (written self.new) result bytes.now }
        ensures counted { faults self.new ≡ faults_after (is_err result) (faults self.old) };
}
