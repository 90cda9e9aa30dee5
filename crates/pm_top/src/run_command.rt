//! The command `run`.
ghost use Rattle.std.specs.Prelude.{◌≡◌, ◌≢◌, ◌≤◌, length};
ghost use Rattle.pm_base.specs.Moment.{IsMoment};
ghost use Rattle.pm_outside.specs.Causes.{faults_after};
ghost use Rattle.pm_outside.specs.Feed.{left_to, KnowsEnd, MOST_AHEAD};
ghost use Rattle.pm_top.specs.Ends.{is_read_fault, is_write_fault, is_store_fault};
ghost use Rattle.pm_top.specs.Session.{input_of, output_of, mail_of};
ghost use Rattle.pm_top.specs.Run.{device_of, IsRun, IsOpened};

use crate::{Status, session};
use pm_disk::Disk;
use pm_engine::Engine;
use pm_inventory::{Inventory, read_inventory};
use pm_outside::{Courier, Feed, Sink, Source};
use std::alloc::Global;

/// Reads an inventory, opens the store with a Boot at this moment, in seconds since 1970-01-01 UTC, and carries one session over the rest of
/// the input. Notices are posted by the courier. A store that has items is garbled at its first gate.
pub fn run<S: Source, K: Sink, D: Disk, P: Courier>(
    alloc: Global,
    boot: u64,
    input: &mut S,
    output: &mut K,
    disk: &mut D,
    courier: &mut P,
) -> Status
    requires { IsMoment boot }

    ensures run { IsRun boot (input_of S.IsTold 0 (S.left input.old) (S.left input.new)) (output_of K.IsTold (K.written output.old) (K.written output.new)) (mail_of P.IsTold (P.posts courier.old) (P.posts courier.new) (P.faults courier.old) (P.faults courier.new)) (device_of D.IsTold (D.told disk.old) (D.told disk.new)) result }
    ensures known { result ≢ Status.Usage }
    ensures read { S.faults input.new ≡ faults_after (is_read_fault result) (S.faults input.old) }
    ensures write { K.faults output.new ≡ faults_after (is_write_fault result) (K.faults output.old) }
    ensures store { D.faults disk.new ≡ faults_after (is_store_fault result) (D.faults disk.old) }
{
    let Ok(mut feed) = Feed::new(alloc) else {
        return Status::Memory;
    };
    match read_inventory(alloc, &mut feed, input) {
        Ok(read) => run_over(
            alloc,
            read.inventory,
            boot,
            &mut feed,
            input,
            output,
            disk,
            courier,
        ),
        Err(error) => Status::from(error),
    }
}

// Opens the store and carries the session.
fn run_over<S: Source, K: Sink, D: Disk, P: Courier>(
    alloc: Global,
    inventory: Inventory,
    boot: u64,
    feed: &mut Feed,
    input: &mut S,
    output: &mut K,
    disk: &mut D,
    courier: &mut P,
) -> Status
    requires boot { IsMoment boot }
    requires knows_end { S.IsTold → KnowsEnd feed.old (S.left input.old) }
    requires ahead { length feed.old.buffered ≤ MOST_AHEAD }

    ensures opened { IsOpened inventory boot feed.old.given (left_to feed.old (S.left input.old)) S.IsTold (S.left input.new) (output_of K.IsTold (K.written output.old) (K.written output.new)) (mail_of P.IsTold (P.posts courier.old) (P.posts courier.new) (P.faults courier.old) (P.faults courier.new)) (device_of D.IsTold (D.told disk.old) (D.told disk.new)) result }
    ensures known { result ≢ Status.Usage }
    ensures read { S.faults input.new ≡ faults_after (is_read_fault result) (S.faults input.old) }
    ensures write { K.faults output.new ≡ faults_after (is_write_fault result) (K.faults output.old) }
    ensures store { D.faults disk.new ≡ faults_after (is_store_fault result) (D.faults disk.old) }
{
    match Engine::open(alloc, disk, inventory, boot) {
        Ok(mut engine) => Status::from(session(
            alloc,
            feed,
            input,
            output,
            &mut engine,
            disk,
            courier,
        )),
        Err(error) => Status::from(error),
    }
}
