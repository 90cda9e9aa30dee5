//! The sums of the rows of reports, by key.
//!
//! For each share of a report its key is put into the map first, with the sums of no row: that may want memory. Then the
//! shares are added, which wants none. So a key may stand in the map that has no row.
ghost use Rattle.std.specs.Prelude.{◌≡◌, ◌+◌, ◌≤◌, ◌∷◌, ◌++◌, [], ℕ, List, true, length, All, IfOk, OnOk, OnErr, cond, map};
ghost use Rattle.pm_file.specs.Content.{ReportContent};
ghost use Rattle.pm_file.specs.Says.{content_of};
ghost use Rattle.pm_kpi.specs.Key.{KeyContent, key_content, key_eq};
ghost use Rattle.pm_kpi.specs.Rows.{AskedContent, ShareContent};
ghost use Rattle.pm_kpi.specs.Asked.{share_content, asked_for};
ghost use Rattle.pm_kpi.specs.Totals.{plus};
ghost use Rattle.pm_kpi.specs.Maps.{has_key, sums_at, HasSame, Holds};

use crate::lines::add_entry;
use crate::rows::{Asked, shares_of};
use crate::share::Share;
use crate::{By, Key, Ratios, Totals};
use pm_file::Report;
use std::alloc::{AllocError, Global};
use std::collections::BTreeMap;

/// The most shares that are added: over so many no sum passes 128 bits.
const MOST_SHARES: u64 = 1_099_511_627_776;

/// The sums of the rows of reports, by key.
#[derive(Drop)]
pub struct Sums {
    alloc: Global,
    map: BTreeMap<Key, Totals>,
    // How many shares were added.
    count: u64,
}

impl Sums {
    ghost use Rattle.pm_kpi.specs.Sums.{StandsFor, Stays};
    ghost use Rattle.pm_kpi.specs.Output.{IsOutput};

    /// The sums of no report.
    pub fn new(alloc: Global) -> Sums
        ensures { (asked : AskedContent) → StandsFor asked [] result }
    {
        Sums {
            alloc,
            map: BTreeMap::new(alloc),
            count: 0,
        }
    }

    /// Adds the rows of a report, as far as they are rows of these ratios and lie between the moments. Each call is to be
    /// given the same of them. The sums of over 1,099,511,627,776 shares of rows want more memory than there is.
    pub fn report(
        &mut self,
        ratios: &Ratios,
        report: &Report,
        begin: u64,
        end: u64,
        by: By,
    ) -> Result<(), AllocError>
        ensures added { (reports : List ReportContent) → StandsFor (asked_for ratios.now begin end by) reports self.old
            → OnOk result (StandsFor (asked_for ratios.now begin end by) (reports ++ content_of report.now ∷ []) self.new) }
        ensures unchanged { OnErr result (Stays self.old self.new) }
    {
        let asked = Asked {
            ratios,
            begin,
            end,
            by,
        };
        let shares = shares_of(self.alloc, &asked, report)?;
        let count = shares.len() as u64;
        if count > MOST_SHARES || self.count > MOST_SHARES - count {
            return Err(AllocError);
        }
        make_room(self.alloc, &mut self.map, &shares)?;
        add_shares(&mut self.map, &shares);
        self.count += count;
        Ok(())
    }

    /// The lines of the keys that stand, in their order.
    pub fn text(&self, ratios: &Ratios, by: By) -> Result<Vec<u8>, AllocError>
        ensures { (reports : List ReportContent) (begin end : ℕ) → StandsFor (asked_for ratios.now begin end by) reports self.now
            → IfOk result (λ text. IsOutput (asked_for ratios.now begin end by) reports text.items) }
    {
        let mut text = Vec::new(self.alloc);
        for (key, totals) in self.map.iter() {
            add_entry(&mut text, ratios, by, key, totals)?;
        }
        Ok(text)
    }
}

// Puts the keys of the shares into the map, as far as it lacks them. The sums stay.
fn make_room(
    alloc: Global,
    sums: &mut BTreeMap<Key, Totals>,
    shares: &[Share],
) -> Result<(), AllocError>
    ensures same { HasSame sums.old sums.new }
    ensures room { OnOk result (All (λ s. has_key sums.new (key_content s.key) ≡ true) shares.now) }
{
    for share in shares {
        put_key(alloc, sums, &share.key)?;
    }
    Ok(())
}

// Puts a key into the map, if it lacks it.
fn put_key(alloc: Global, sums: &mut BTreeMap<Key, Totals>, key: &Key) -> Result<(), AllocError>
    ensures same { HasSame sums.old sums.new }
    ensures stays { (q : KeyContent) → has_key sums.old q ≡ true → has_key sums.new q ≡ true }
    ensures put { OnOk result (has_key sums.new (key_content key.now) ≡ true) }
{
    if sums.contains_key(key) {
        return Ok(());
    }
    let copy = key.copy(alloc)?;
    sums.insert(copy, Totals::none())?;
    Ok(())
}

// Adds the shares, whose keys are in the map.
fn add_shares(sums: &mut BTreeMap<Key, Totals>, shares: &[Share])
    requires { All (λ s. has_key sums.old (key_content s.key) ≡ true) shares.now }
    ensures { (base : List ShareContent) → (length base + length shares.now ≤ MOST_SHARES) → Holds sums.old base → Holds sums.new (base ++ map share_content shares.now) }
{
    for share in shares {
        add_share(sums, share);
    }
}

// Adds a share, whose key is in the map.
fn add_share(sums: &mut BTreeMap<Key, Totals>, share: &Share)
    requires { has_key sums.old (key_content share.now.key) ≡ true }
    ensures added { (q : KeyContent) → sums_at sums.new q ≡ cond (key_eq q (key_content share.now.key)) (plus (sums_at sums.old q) share.now.adds) (sums_at sums.old q) }
    ensures stays { (q : KeyContent) → has_key sums.new q ≡ has_key sums.old q }
{
    if let Some(totals) = sums.get_mut(&share.key) {
        *totals = totals.plus(&share.adds);
    }
}
