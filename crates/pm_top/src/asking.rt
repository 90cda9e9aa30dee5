//! A request that was read, and the engine.
ghost use Rattle.std.specs.Prelude.{◌≡◌, ◌≤◌, length, OnOk, IfOk, IfErr, IfSome};
ghost use Rattle.pm_base.specs.Moment.{IsMoment};
ghost use Rattle.pm_outside.specs.Causes.{faults_after};
ghost use Rattle.pm_batch.specs.declared.batch.TheConstants.{MOST_BODY};
ghost use Rattle.pm_ledger.specs.Refusals.{add_fails};
ghost use Rattle.pm_engine.specs.Bears.{inventory_of, Run, Carries, IsUsable};
ghost use Rattle.pm_top.specs.SessionTurn.{moment_asked, bad_moment, IsAnsweredOver};
ghost use Rattle.pm_top.specs.Session.{IsCutOff};

use pm_base::{Code, read_moment};
use pm_disk::Disk;
use pm_engine::{Engine, EngineError};
use pm_http::{Reply, Request};
use pm_state::refused;
use std::alloc::Global;

/// Answers a request at the moment of its Pm-Moment field, or at the last moment where it has none.
pub fn answer<D: Disk>(
    alloc: Global,
    engine: &mut Engine,
    disk: &mut D,
    request: &Request,
) -> Result<Reply, EngineError>
    requires usable { IsUsable D.IsTold engine.old (D.told disk.old) }
    requires few { length request.now.body ≤ MOST_BODY }

    ensures answered { (run : Run) → Carries D.IsTold engine.old (D.told disk.old) run
        → IfOk result (λ reply. IsAnsweredOver (inventory_of engine.old) run request.now reply (Carries D.IsTold engine.new (D.told disk.new))) }
    ensures cut_off { D.IsTold → (run : Run) → Carries D.IsTold engine.old (D.told disk.old) run
        → IfErr result (λ _. IsCutOff (inventory_of engine.old) request.now run (D.told disk.new).now) }
    ensures usable { OnOk result (IsUsable D.IsTold engine.new (D.told disk.new)) }
    ensures inventory { inventory_of engine.new ≡ inventory_of engine.old }
    ensures faults { D.faults disk.new ≡ faults_after (add_fails result) (D.faults disk.old) }
{
    match moment_of(request, engine.now()) {
        Some(moment) => engine.answer(disk, moment, request),
        None => Ok(refuse_moment(alloc, request)),
    }
}

// The moment at which a request is asked. None where its field is no moment.
fn moment_of(request: &Request, last: u64) -> Option<u64>
    requires { IsMoment last }
    ensures moment { result ≡ moment_asked request.now.moment last }
    ensures range { IfSome result IsMoment }
{
    match &request.moment {
        Some(field) => read_moment(field.as_bytes()),
        None => Some(last),
    }
}

fn refuse_moment(alloc: Global, request: &Request) -> Reply
    ensures { result ≡ bad_moment request.now }
{
    let mut reply = refused(alloc, Code::H8);
    reply.head = request.method.as_bytes() == b"HEAD".as_slice();
    reply
}
