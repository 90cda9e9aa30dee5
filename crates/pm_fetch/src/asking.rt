//! One exchange with a peer, and what its reply changes.
ghost use Rattle.std.specs.Prelude.{◌≡◌, ◌⊎◌, false, OnOk, IfErr};
ghost use Rattle.pm_outside.specs.Causes.{faults_after};
ghost use Rattle.pm_collect.specs.Collector.{IsReady, IsTied};
ghost use Rattle.pm_fetch.specs.Exchanged.{Replies};
ghost use Rattle.pm_fetch.specs.Faults.{names_input, names_output, names_disk, names_link, fails_by};

use crate::FetchEnd;
use crate::reply::{MOST_REPLY, Said, read_reply};
use crate::request::{ask_file, ask_listing};
use pm_base::Code;
use pm_collect::{CollectError, Collector};
use pm_disk::Disk;
use pm_outside::{Link, LinkError};
use std::alloc::Global;

/// Fetches a wanted file, which is the exchange of this number, and holds it. The answer is true.
pub fn fetch<D: Disk, L: Link>(
    alloc: Global,
    collector: &mut Collector,
    disk: &mut D,
    link: &mut L,
    port: u16,
    listed: bool,
    place: u64,
    name: &[u8],
) -> Result<bool, FetchEnd>
    requires ready { IsReady collector.old }
    requires tied { D.IsTold → IsTied collector.old (D.told disk.old).now }
    ensures ready { OnOk result (IsReady collector.new) }
    ensures tied { D.IsTold → OnOk result (IsTied collector.new (D.told disk.new).now) }
    ensures no_stream { (fails_by names_input result ≡ false) × (fails_by names_output result ≡ false) }
    ensures disk { D.faults disk.new ≡ faults_after (fails_by names_disk result) (D.faults disk.old) }
    ensures link { L.faults link.new ≡ faults_after (fails_by names_link result) (L.faults link.old) }
{
    let Ok(request) = ask_file(alloc, name) else {
        return Err(FetchEnd::Memory);
    };
    match exchange(alloc, link, port, &request) {
        Ok(said) => take_file(collector, disk, listed, place, name, said),
        Err(end) => Err(end),
    }
}

// Takes what a peer says that was asked for a file. Before the listing was read, a file that it hasn't is wanted no more.
fn take_file<D: Disk>(
    collector: &mut Collector,
    disk: &mut D,
    listed: bool,
    place: u64,
    name: &[u8],
    said: Said,
) -> Result<bool, FetchEnd>
    requires ready { IsReady collector.old }
    requires tied { D.IsTold → IsTied collector.old (D.told disk.old).now }
    ensures ready { OnOk result (IsReady collector.new) }
    ensures tied { D.IsTold → OnOk result (IsTied collector.new (D.told disk.new).now) }
    ensures no_stream { (fails_by names_input result ≡ false) × (fails_by names_output result ≡ false) }
    ensures disk { D.faults disk.new ≡ faults_after (fails_by names_disk result) (D.faults disk.old) }
    ensures no_link { fails_by names_link result ≡ false }
{
    match said {
        Said::Body(text) => hold(collector, disk, place, name, text.as_bytes()),
        Said::Absent if !listed => {
            let _was_wanted = collector.gone(name);
            Ok(true)
        }
        _ => Err(FetchEnd::BadPeer {
            place,
            code: Code::X1,
        }),
    }
}

// Holds a file, which is the reply of the exchange of this number.
fn hold<D: Disk>(
    collector: &mut Collector,
    disk: &mut D,
    place: u64,
    name: &[u8],
    text: &[u8],
) -> Result<bool, FetchEnd>
    requires ready { IsReady collector.old }
    requires tied { D.IsTold → IsTied collector.old (D.told disk.old).now }
    ensures ready { OnOk result (IsReady collector.new) }
    ensures tied { D.IsTold → OnOk result (IsTied collector.new (D.told disk.new).now) }
    ensures no_stream { (fails_by names_input result ≡ false) × (fails_by names_output result ≡ false) }
    ensures disk { D.faults disk.new ≡ faults_after (fails_by names_disk result) (D.faults disk.old) }
    ensures no_link { fails_by names_link result ≡ false }
{
    match collector.file(disk, name, text) {
        Ok(()) => Ok(true),
        Err(CollectError::C3) => Err(FetchEnd::BadPeer {
            place,
            code: Code::C3,
        }),
        Err(CollectError::StoreFault) => Err(FetchEnd::StoreFault),
        Err(CollectError::StoreFull { length, need }) => Err(FetchEnd::StoreFull { length, need }),
        Err(_) => Err(FetchEnd::Memory),
    }
}

/// Asks for the listing, which is the exchange of this number. What is missing of it is wanted then. The answer is true.
pub fn list<L: Link>(
    alloc: Global,
    collector: &mut Collector,
    link: &mut L,
    port: u16,
    listed: &mut bool,
    place: u64,
) -> Result<bool, FetchEnd>
    requires ready { IsReady collector.old }
    ensures store { collector.new.journal ≡ collector.old.journal }
    ensures no_stream { (fails_by names_input result ≡ false) × (fails_by names_output result ≡ false) }
    ensures no_disk { fails_by names_disk result ≡ false }
    ensures link { L.faults link.new ≡ faults_after (fails_by names_link result) (L.faults link.old) }
{
    let Ok(request) = ask_listing(alloc) else {
        return Err(FetchEnd::Memory);
    };
    match exchange(alloc, link, port, &request) {
        Ok(said) => take_listing(collector, listed, place, said),
        Err(end) => Err(end),
    }
}

// Takes what a peer says that was asked for the listing.
fn take_listing(
    collector: &mut Collector,
    listed: &mut bool,
    place: u64,
    said: Said,
) -> Result<bool, FetchEnd>
    requires ready { IsReady collector.old }
    ensures store { collector.new.journal ≡ collector.old.journal }
    ensures no_stream { (fails_by names_input result ≡ false) × (fails_by names_output result ≡ false) }
    ensures no_disk { fails_by names_disk result ≡ false }
    ensures no_link { fails_by names_link result ≡ false }
{
    let Said::Body(text) = said else {
        return Err(FetchEnd::BadPeer {
            place,
            code: Code::X1,
        });
    };
    match collector.listing(text.as_bytes()) {
        Ok(()) => {
            *listed = true;
            Ok(true)
        }
        Err(CollectError::C2) => Err(FetchEnd::BadPeer {
            place,
            code: Code::C2,
        }),
        Err(_) => Err(FetchEnd::Memory),
    }
}

// Sends a request and reads the reply.
fn exchange<L: Link>(
    alloc: Global,
    link: &mut L,
    port: u16,
    request: &[u8],
) -> Result<Said, FetchEnd>
    ensures replies { L.IsTold → Replies port request.now (L.state link.old) (L.state link.new) result }
    ensures known { IfErr result (λ e. (e ≡ FetchEnd.LinkFault) ⊎ (e ≡ FetchEnd.Memory)) }
    ensures link { L.faults link.new ≡ faults_after (fails_by names_link result) (L.faults link.old) }
{
    match link.exchange(alloc, port, request, MOST_REPLY) {
        Ok(reply) => match read_reply(alloc, reply.as_bytes()) {
            Some(said) => Ok(said),
            None => Err(FetchEnd::Memory),
        },
        Err(LinkError::Failed) => Err(FetchEnd::LinkFault),
        Err(LinkError::Memory) => Err(FetchEnd::Memory),
    }
}
