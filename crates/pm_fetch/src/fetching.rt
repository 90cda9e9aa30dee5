//! The exchanges with the peer, one after another.
ghost use Rattle.std.specs.Prelude.{◌≡◌, ℕ, List, false, Err, IfOk, OnOk, OnErr, MatchOption};
ghost use Rattle.pm_outside.specs.Causes.{faults_after};
ghost use Rattle.pm_collect.specs.Collector.{IsReady, IsTied};
ghost use Rattle.pm_collect.specs.Maps.{has};
ghost use Rattle.pm_collect.specs.Names.{IsFirst};
ghost use Rattle.pm_fetch.specs.Faults.{names_input, names_output, names_disk, names_link, fails_by};

use crate::FetchEnd;
use crate::asking::{fetch, list};
use pm_collect::Collector;
use pm_disk::Disk;
use pm_outside::Link;
use std::alloc::Global;

/// Fetches what is wanted, asks for the listing, and fetches what is missing of it.
pub fn fetch_all<D: Disk, L: Link>(
    alloc: Global,
    collector: &mut Collector,
    disk: &mut D,
    link: &mut L,
    port: u16,
) -> Result<(), FetchEnd>
    requires ready { IsReady collector.old }
    requires tied { D.IsTold → IsTied collector.old (D.told disk.old).now }
    ensures ready { OnOk result (IsReady collector.new) }
    ensures no_stream { (fails_by names_input result ≡ false) × (fails_by names_output result ≡ false) }
    ensures disk { D.faults disk.new ≡ faults_after (fails_by names_disk result) (D.faults disk.old) }
    ensures link { L.faults link.new ≡ faults_after (fails_by names_link result) (L.faults link.old) }
{
    let mut listed = false;
    for place in 1..u64::MAX {
        if !take_turn(alloc, collector, disk, link, port, &mut listed, place)? {
            return Ok(());
        }
    }
    Err(FetchEnd::Memory)
}

// Makes the next exchange, which has this number, and answers whether there was one to make.
fn take_turn<D: Disk, L: Link>(
    alloc: Global,
    collector: &mut Collector,
    disk: &mut D,
    link: &mut L,
    port: u16,
    listed: &mut bool,
    place: u64,
) -> Result<bool, FetchEnd>
    requires ready { IsReady collector.old }
    requires tied { D.IsTold → IsTied collector.old (D.told disk.old).now }
    ensures ready { OnOk result (IsReady collector.new) }
    ensures tied { D.IsTold → OnOk result (IsTied collector.new (D.told disk.new).now) }
    ensures no_stream { (fails_by names_input result ≡ false) × (fails_by names_output result ≡ false) }
    ensures disk { D.faults disk.new ≡ faults_after (fails_by names_disk result) (D.faults disk.old) }
    ensures link { L.faults link.new ≡ faults_after (fails_by names_link result) (L.faults link.old) }
{
    match next_name(alloc, collector)? {
        Some(name) => fetch(alloc, collector, disk, link, port, *listed, place, &name),
        None if !*listed => list(alloc, collector, link, port, listed, place),
        None => Ok(false),
    }
}

// A copy of the first wanted name.
fn next_name(alloc: Global, collector: &Collector) -> Result<Option<Vec<u8>>, FetchEnd>
    ensures name { IfOk result (λ name. MatchOption name ((n : List ℕ) → has collector.now.names.wanted n ≡ false) (λ v. IsFirst collector.now.names v.items)) }
    ensures memory { OnErr result (result ≡ Err FetchEnd.Memory) }
{
    match collector.next_fetch() {
        Some(name) => match Vec::from_slice(alloc, name) {
            Ok(name) => Ok(Some(name)),
            Err(_) => Err(FetchEnd::Memory),
        },
        None => Ok(None),
    }
}
