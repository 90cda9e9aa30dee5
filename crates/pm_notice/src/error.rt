//! Why a subscription is not made or removed.
ghost use Rattle.std.specs.Prelude.{◌≡◌};

use pm_base::Code;
use std::alloc::AllocError;
use thiserror::Error;

/// Why a change of the subscriptions is refused, in the order in which the rules are tested; but for P2, which is the one
/// of a removal.
#[derive(Clone, Copy, Debug, PartialEq, Eq, Error)]
pub enum SubError {
    /// The id or the body is none.
    #[error("the id or the body of the subscription is malformed")]
    P3,
    /// A subscription of this id has another port or path.
    #[error("a subscription of this id exists with another port or path")]
    P4,
    /// Eight subscriptions exist, and none of this id.
    #[error("eight subscriptions exist already")]
    P1,
    /// No subscription of this id exists.
    #[error("no subscription of this id exists")]
    P2,
    /// Out of memory.
    #[error("out of memory for the subscription")]
    Memory,
}

impl SubError {
    ghost use Rattle.pm_notice.specs.Plan.{code_of};

    /// The code of the rule.
    pub fn code(self) -> Code
        ensures { result ≡ code_of self }
    {
        match self {
            SubError::P3 => Code::P3,
            SubError::P4 => Code::P4,
            SubError::P1 => Code::P1,
            SubError::P2 => Code::P2,
            SubError::Memory => Code::MEM,
        }
    }
}

impl From<AllocError> for SubError {
    ghost use Rattle.pm_notice.specs.declared.error.SubError.TheVariants.{Memory};

    ghost from_gives = { λ _ e. e ≡ Memory };

    fn from(_: AllocError) -> Self {
        SubError::Memory
    }
}
