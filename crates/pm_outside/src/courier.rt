//! A courier of notices: it posts a body to a port of this host.
ghost use Rattle.std.specs.Prelude.{◌≡◌, List, ℕ};
ghost use Rattle.std.specs.Result.{is_err};
ghost use Rattle.pm_outside.specs.Causes.{faults_after};
ghost use Rattle.pm_outside.specs.Posts.{Post, Posts};

use crate::Failed;

/// A courier of posts, as an HTTP client.
pub trait Courier {
    /// Whether couriers of this type tell which posts were made.
    ghost IsTold: { Type 0 };

    /// The posts made, first to last.
    ghost posts: { Self → List Post };

    /// How often it has failed, up to 18,446,744,073,709,551,615.
    ghost faults: { Self → ℕ };

    /// Posts the body to the path at the port. A post that fails counts as not made.
    fn post(&mut self, port: u16, path: &[u8], body: &[u8]) -> Result<(), Failed>
        ensures told { IsTold → Posts (posts self.old) (posts self.new) result (record { port = port; path = path.now; body = body.now }) }
        ensures counted { faults self.new ≡ faults_after (is_err result) (faults self.old) };
}
