//! A link to other programs of this host: it sends a request to a port and takes the reply.
ghost use Rattle.std.specs.Prelude.{◌≡◌, ◌≤◌, ℕ, IfOk, length};
ghost use Rattle.pm_outside.specs.Causes.{faults_after};
ghost use Rattle.pm_outside.specs.Exchanges.{LinkState, Exchanges, has_link_failed};

use pm_base::Blob;
use std::alloc::{AllocError, Global};
use thiserror::Error;

/// Why an exchange gives no reply. None is made then.
#[derive(Clone, Copy, Debug, PartialEq, Eq, Drop, Error)]
pub enum LinkError {
    /// The link failed, and counted one fault.
    #[error("the link failed")]
    Failed,
    /// Memory is out.
    #[error("out of memory")]
    Memory,
}

impl From<AllocError> for LinkError {
    ghost use Rattle.pm_outside.specs.declared.link.LinkError.TheVariants.{Memory};

    ghost from_gives = { λ _ e. e ≡ Memory };

    fn from(_: AllocError) -> Self {
        LinkError::Memory
    }
}

/// A request, and the port that it was sent to.
#[derive(Debug, Drop)]
pub struct Exchange {
    pub port: u16,
    pub request: Blob,
}

/// A link for exchanges, as an HTTP client with a connection for each.
pub trait Link {
    /// Whether links of this type tell their replies and exchanges.
    ghost IsTold: { Type 0 };

    /// The replies that it has left, and the exchanges made.
    ghost state: { Self → LinkState };

    /// How often it has failed, up to 18,446,744,073,709,551,615.
    ghost faults: { Self → ℕ };

    /// Sends the request to the port, and gives the reply, cut after `limit` bytes.
    fn exchange(
        &mut self,
        alloc: Global,
        port: u16,
        request: &[u8],
        limit: u32,
    ) -> Result<Blob, LinkError>
        ensures bound { IfOk result (λ reply. length reply ≤ limit) }
        ensures told { IsTold → Exchanges (state self.old) (state self.new) result (record { port = port; request = request.now }) limit }
        ensures counted { faults self.new ≡ faults_after (has_link_failed result) (faults self.old) };
}
