//! A listener on a port of this host, which gives its connections one after the other.
ghost use Rattle.std.specs.Prelude.{◌≡◌, ◌+◌, ◌<◌, ℕ, MatchResult, MatchOption};
ghost use Rattle.std.specs.Result.{is_err};
ghost use Rattle.pm_outside.specs.Causes.{faults_after};
ghost use Rattle.pm_outside.specs.Connections.{DoorsState, IsBound, NoneIsLeft, IsTaken, IsEnded};

use crate::{Failed, Sink, Source};

/// A listener. A connection is two objects, what comes in and what goes out.
pub trait Doors {
    /// What a connection is read from.
    type In: Source + Drop;

    /// What a connection's replies are written to.
    type Out: Sink + Drop;

    /// Whether listeners of this type tell their connections.
    ghost IsTold: { Type 0 };

    /// The port that it was bound to, the connections that are left, and those that are done.
    ghost state: { Self → DoorsState };

    /// How many connections are out: given by `next`, and not yet done. All types tell this.
    ghost out: { Self → ℕ };

    /// How often it has failed, up to 18,446,744,073,709,551,615.
    ghost faults: { Self → ℕ };

    /// Listens on the port of this host.
    fn bind(&mut self, port: u16) -> Result<(), Failed>
        ensures told { IsTold → MatchResult result (λ _. IsBound port (state self.old) (state self.new)) (λ _. state self.new ≡ state self.old) }
        ensures out { out self.new ≡ out self.old }
        ensures counted { faults self.new ≡ faults_after (is_err result) (faults self.old) };

    /// The first connection that is left, or `None` where none is. A listener on a real port waits for one, and never
    /// answers `None`.
    fn next(&mut self) -> Result<Option<(Self::In, Self::Out)>, Failed>
        ensures told { IsTold → MatchResult result (λ given. MatchOption given (NoneIsLeft (state self.old) (state self.new)) (λ c. IsTaken (record { left = Self.In.left c.0; written = Self.Out.written c.1; read_faults = Self.In.faults c.0; write_faults = Self.Out.faults c.1 }) (state self.old) (state self.new))) (λ _. state self.new ≡ state self.old) }
        ensures out { MatchResult result (λ given. MatchOption given (out self.new ≡ out self.old) (λ _. out self.new ≡ out self.old + 1)) (λ _. out self.new ≡ out self.old) }
        ensures counted { faults self.new ≡ faults_after (is_err result) (faults self.old) };

    /// Ends a connection. It can't be refused, and takes no memory.
    fn done(&mut self, input: Self::In, output: Self::Out)
        requires { 0 < out self.old }
        ensures told { IsTold → IsEnded (record { left = Self.In.left input; written = Self.Out.written output; read_faults = Self.In.faults input; write_faults = Self.Out.faults output }) (state self.old) (state self.new) }
        ensures out { out self.new + 1 ≡ out self.old }
        ensures faults { faults self.new ≡ faults self.old };
}
