//! The top call of the program.
ghost use Rattle.std.specs.Prelude.{◌≡◌, ◌↔◌, ℕ, map, string_bytes, None, Some};
ghost use Rattle.pm_outside.specs.Causes.{faults_after};
ghost use Rattle.pm_tally.specs.Outcome.{ran, IsOutcome};
ghost use Rattle.pm_top.specs.Words.{command_of};
ghost use Rattle.pm_top.specs.Ends.{IsStatusOf, is_read_fault, is_write_fault, is_store_fault};
ghost use Rattle.pm_top.specs.Session.{input_of, output_of, mail_of};
ghost use Rattle.pm_top.specs.Run.{device_of, IsRun};
ghost use Rattle.pm_top.specs.Collect.{is_link_fault};

use crate::Status;
use crate::run_command::run;
use crate::words::{Command, read_command};
use pm_disk::Disk;
use pm_fetch::collect;
use pm_outside::{Courier, Link, Sink, Source};
use pm_tally::tally;
use std::alloc::Global;

/// Does all that the program does, by the words after its name. `tally` reads an inventory and lines of events from the input and writes their
/// tally. `run` reads an inventory and requests from the input, keeps their history in the store on the disk, writes the replies, and
/// posts the notices of its subscriptions by the courier. `collect` reads notices from the input, fetches the files that they and a
/// listing tell over the link into the store on the disk, and writes a line for each held file.
pub fn pmd<S: Source, K: Sink, D: Disk, P: Courier, L: Link>(
    alloc: Global,
    words: &[String],
    input: &mut S,
    output: &mut K,
    disk: &mut D,
    courier: &mut P,
    link: &mut L,
) -> Status
    ensures usage { (result ≡ Status.Usage) ↔ (command_of (map string_bytes words.now) ≡ None) }
    ensures usage_reads { result ≡ Status.Usage → S.left input.new ≡ S.left input.old }
    ensures usage_writes { result ≡ Status.Usage → K.written output.new ≡ K.written output.old }
    ensures usage_stores { result ≡ Status.Usage → D.told disk.new ≡ D.told disk.old }
    ensures usage_posts { result ≡ Status.Usage → P.posts courier.new ≡ P.posts courier.old }
    ensures tally { command_of (map string_bytes words.now) ≡ Some Command.Tally → S.IsTold → IsStatusOf (IsOutcome (ran 0 (S.left input.old) (S.left input.new) K.IsTold (K.written output.old) (K.written output.new))) result }
    ensures tally_stores { command_of (map string_bytes words.now) ≡ Some Command.Tally → D.told disk.new ≡ D.told disk.old }
    ensures tally_posts { command_of (map string_bytes words.now) ≡ Some Command.Tally → P.posts courier.new ≡ P.posts courier.old }
    ensures run { (boot workers : ℕ) → command_of (map string_bytes words.now) ≡ Some (Command.Run boot workers)
        → IsRun boot (input_of S.IsTold 0 (S.left input.old) (S.left input.new)) (output_of K.IsTold (K.written output.old) (K.written output.new)) (mail_of P.IsTold (P.posts courier.old) (P.posts courier.new) (P.faults courier.old) (P.faults courier.new)) (device_of D.IsTold (D.told disk.old) (D.told disk.new)) result }

    // Only `collect` makes exchanges, and only `run` posts.
    ensures usage_links { result ≡ Status.Usage → L.state link.new ≡ L.state link.old }
    ensures tally_links { command_of (map string_bytes words.now) ≡ Some Command.Tally → L.state link.new ≡ L.state link.old }
    ensures collect_posts { (port : ℕ) → command_of (map string_bytes words.now) ≡ Some (Command.Collect port) → P.posts courier.new ≡ P.posts courier.old }
    ensures run_links { (boot workers : ℕ) → command_of (map string_bytes words.now) ≡ Some (Command.Run boot workers) → L.state link.new ≡ L.state link.old }

    // A fault is counted exactly where the status names it.
    ensures read { S.faults input.new ≡ faults_after (is_read_fault result) (S.faults input.old) }
    ensures write { K.faults output.new ≡ faults_after (is_write_fault result) (K.faults output.old) }
    ensures store { D.faults disk.new ≡ faults_after (is_store_fault result) (D.faults disk.old) }
    ensures link { (port : ℕ) → command_of (map string_bytes words.now) ≡ Some (Command.Collect port) → L.faults link.new ≡ faults_after (is_link_fault result) (L.faults link.old) }
{
    match read_command(words) {
        Some(Command::Tally) => Status::from(tally(alloc, input, output)),
        Some(Command::Run { boot, .. }) => run(alloc, boot, input, output, disk, courier),
        Some(Command::Collect { port }) => {
            Status::from(collect(alloc, port, input, output, disk, link))
        }
        None => Status::Usage,
    }
}
