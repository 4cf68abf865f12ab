//! The commit of all that a hub holds, to its end.
ghost use Rattle.std.specs.Prelude.{◌≡◌, ◌↔◌, true, false, IsTrue};
ghost use Rattle.group_commit.specs.declared.phase.Phase.TheVariants.{Sync3};
ghost use Rattle.op_model.specs.Machine.{is_under_way};
ghost use Rattle.locked_replica.specs.Hub.{state_of};
ghost use Rattle.session_threads.specs.HubCalls.{IsQuiet, DeskBegins, GoesThrough, Commits};

use crate::commit_start::CommitStart;
use disk_trait::Disk;
use fixed_numbers::refusals::MEMORY;
use group_commit::Phase;
use hub_parts::BEGIN_TRIES;
use locked_replica::Hub;

/// Commits all that a hub holds, to the end. Answers whether all is settled then; else the device
/// failed, or no commit could begin. Takes no memory but for the begin. So many device calls as the
/// commit has.
pub(crate) fn commit<D: Disk>(hub: &mut Hub<D>) -> bool
    requires { IsQuiet (state_of hub.old) }
    ensures commits { Commits D.DiskFacts hub.old result hub.new }
    ensures quiet { IsQuiet (state_of hub.new) }
    ensures list { hub.new.replica.list ≡ hub.old.replica.list }
{
    match begin(hub) {
        CommitStart::Settled => true,
        CommitStart::Refused => false,
        CommitStart::UnderWay => {
            // Where a device call failed, the settlement tells it, and nothing is settled.
            let is_through = go_through(hub);
            let is_settled = hub.settle().is_ok();
            is_through && is_settled
        }
    }
}

/// Begins a commit, where a begin that finds no memory is made again.
fn begin<D: Disk>(hub: &mut Hub<D>) -> CommitStart
    requires { IsQuiet (state_of hub.old) }
    ensures { DeskBegins D.DiskFacts hub.old result hub.new }
{
    for _ in 0..BEGIN_TRIES {
        match hub.begin() {
            Ok(Some(_)) => return CommitStart::UnderWay,
            Ok(None) => return CommitStart::Settled,
            Err(refusal) if refusal.number() == MEMORY => {}
            Err(_) => return CommitStart::Refused,
        }
    }
    CommitStart::Refused
}

/// Makes the device calls of the commit under way, and answers whether it is through; else the
/// device failed.
fn go_through<D: Disk>(hub: &mut Hub<D>) -> bool
    requires under_way { is_under_way (state_of hub.old).commit ≡ true }
    requires works { (state_of hub.old).failed ≡ false }
    ensures { GoesThrough D.DiskFacts hub.old result hub.new }
{
    loop {
        match hub.device_step() {
            Ok(phase) if is_last(phase) => return true,
            Ok(_) => {}
            Err(_) => return false,
        }
    }
}

/// Whether a commit is through after the call of this phase.
fn is_last(phase: Phase) -> bool
    ensures { IsTrue result ↔ (phase ≡ Sync3) }
{
    matches!(phase, Phase::Sync3)
}
