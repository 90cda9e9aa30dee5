//! A job or a monitor, as its making.
ghost use Rattle.std.specs.Prelude.{◌≡◌, IfOk};

use crate::copy::copy;
use pm_base::Text;
use pm_history::Side;
use std::alloc::{AllocError, Global};
use std::marker::Model;

/// The side, the id, and the place of the entry that made it, from 0.
#[derive(Drop)]
pub struct Making<'a> {
    pub side: Side,
    pub id: &'a Text,
    pub place: u64,
}

impl<'a> Model for Making<'a> {
    ghost use Rattle.pm_history.specs.Standing.{Making};

    ghost Value = { Making };

    ghost view = { λ w. record { side = w.side; id = w.id.now; place = w.place } };
}

impl<'a> Making<'a> {
    pub(crate) fn copied_id(&self, alloc: Global) -> Result<Text, AllocError>
        ensures { IfOk result (λ t. t ≡ self.now.id) }
    {
        copy(alloc, self.id)
    }
}
