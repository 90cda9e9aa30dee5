//! The bank's rule, and what each kind of atomic step tells the thread that makes it.
use crate::view::View;
use atomic_table::{Join, Play, Split, Table, TableRule};
use std::alloc::Global;
use std::marker::{Brand, PhantomData};

/// The words of a bank. The key is how many slots it has.
pub(crate) type Counters = Table<(), View, u64, Counted, Global>;

/// The rule that the words and all views keep.
pub struct Counted;

impl TableRule<(), View, u64> for Counted {
    ghost use Rattle.pm_bank.specs.Rule.{Kept};
    ghost use Rattle.pm_bank.specs.Steps.{new_keeper};

    ghost holds = { λ slots s. Kept slots s.words s.views };

    ghost first = { λ _. new_keeper };
}

/// As many events arrive as the step adds.
pub struct Arrive;

impl Play<(), View> for Arrive {
    ghost use Rattle.std.specs.Prelude.{◌≡◌};
    ghost use Rattle.pm_bank.specs.Steps.{Arrives};

    ghost then = { λ s v n w. Arrives s.first v.0 n w.0 × (w.1 ≡ v.1) };
}

/// The gate's epoch is read.
pub struct Glance;

impl Play<(), View> for Glance {
    ghost use Rattle.std.specs.Prelude.{◌≡◌};
    ghost use Rattle.pm_bank.specs.Steps.{Glances};

    ghost then = { λ _ v n w. Glances v.0 n w.0 × (w.1 ≡ v.1) };
}

/// What is laid into a word of a slot, or found there. Each call picks it.
pub trait Laid {
    ghost use Rattle.std.specs.Prelude.{ℕ};

    ghost word: { ℕ };

    ghost slot: { ℕ };

    ghost amount: { ℕ };
}

impl Laid for Brand {
    ghost word = { 0 };

    ghost slot = { 0 };

    ghost amount = { 0 };
}

/// A part of an open visit is added, raised or lowered.
pub struct Lay<P: Laid> {
    of: PhantomData<P>,
}

impl<P: Laid> Play<(), View> for Lay<P> {
    ghost use Rattle.std.specs.Prelude.{◌≡◌};
    ghost use Rattle.pm_bank.specs.Steps.{lays};

    ghost then = { λ _ v n w. w ≡ (lays P.word P.slot P.amount v.0, v.1) };
}

/// The events of a visit. Each call picks them.
pub trait Hits {
    ghost use Rattle.std.specs.Prelude.{List, []};
    ghost use Rattle.pm_bank.specs.declared.view.Hit.{Hit};

    ghost hits: { List Hit };
}

impl Hits for Brand {
    ghost use Rattle.std.specs.Prelude.{[]};

    ghost hits = { [] };
}

/// An open visit becomes entries.
pub struct Leave<H: Hits> {
    of: PhantomData<H>,
}

impl<H: Hits> Play<(), View> for Leave<H> {
    ghost use Rattle.std.specs.Prelude.{◌≡◌};
    ghost use Rattle.pm_bank.specs.Steps.{left};

    ghost then = { λ _ v n w. w ≡ (left H.hits v.0, v.1) };
}

/// The epoch ends.
pub struct Flip;

impl Play<(), View> for Flip {
    ghost use Rattle.std.specs.Prelude.{◌≡◌};
    ghost use Rattle.pm_bank.specs.Steps.{Flips};

    ghost then = { λ _ v n w. Flips v.0 n w.0 × (w.1 ≡ v.1) };
}

/// The leaves of the ended epoch are read.
pub struct Look;

impl Play<(), View> for Look {
    ghost use Rattle.std.specs.Prelude.{◌≡◌};
    ghost use Rattle.pm_bank.specs.Steps.{Looks};

    ghost then = { λ _ v n w. Looks v.0 n w.0 × (w.1 ≡ v.1) };
}

/// A word of the ended epoch is taken.
pub struct TakeCell<P: Laid> {
    of: PhantomData<P>,
}

impl<P: Laid> Play<(), View> for TakeCell<P> {
    ghost use Rattle.std.specs.Prelude.{◌≡◌};
    ghost use Rattle.pm_bank.specs.Steps.{TakesCell};

    ghost then = { λ _ v n w. TakesCell P.word P.slot v.0 n w.0 × (w.1 ≡ v.1) };
}

/// The cells that were taken. Each call picks them.
pub trait Found {
    ghost use Rattle.std.specs.Prelude.{List};
    ghost use Rattle.pm_meas.specs.declared.cell.Cell.{Cell};

    ghost cells: { List Cell };
}

impl Found for Brand {
    ghost use Rattle.std.specs.Prelude.{[]};

    ghost cells = { [] };
}

/// The leaves of the ended epoch are taken.
pub struct TakeLeaves<F: Found> {
    of: PhantomData<F>,
}

impl<F: Found> Play<(), View> for TakeLeaves<F> {
    ghost use Rattle.std.specs.Prelude.{◌≡◌};
    ghost use Rattle.pm_bank.specs.Steps.{TakesLeaves};

    ghost then = { λ _ v n w. TakesLeaves F.cells v.0 w.0 × (w.1 ≡ v.1) };
}

/// How many events a new pass may count. Each call picks it.
pub trait Quota {
    ghost use Rattle.std.specs.Prelude.{ℕ};

    ghost quota: { ℕ };
}

impl Quota for Brand {
    ghost quota = { 0 };
}

/// A pass is cut off the keeper.
pub struct Hire<Q: Quota> {
    of: PhantomData<Q>,
}

impl<Q: Quota> Split<View> for Hire<Q> {
    ghost use Rattle.pm_bank.specs.Steps.{hires, hired};

    ghost left = { λ v. hires Q.quota v };

    ghost right = { λ v. hired Q.quota v };
}

/// A pass is joined to the keeper.
pub struct Meet;

impl Join<View> for Meet {
    ghost use Rattle.pm_bank.specs.Steps.{meets, spent};

    ghost both = { meets };

    ghost spent = { spent };
}

/// The pass that was met is counted no more.
pub struct Settle;

impl Play<(), View> for Settle {
    ghost use Rattle.std.specs.Prelude.{◌≡◌};
    ghost use Rattle.pm_bank.specs.Steps.{Settles};

    ghost then = { λ _ v n w. Settles v.0 w.0 × (w.1 ≡ v.1) };
}
