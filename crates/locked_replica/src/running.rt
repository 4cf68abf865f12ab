//! A list of calls.
ghost use Rattle.std.specs.Prelude.{◌≡◌, List, length, IfOk, OnErr};
ghost use Rattle.locked_replica.specs.Calls.{IsCall};
ghost use Rattle.locked_replica.specs.Run.{Replied};
ghost use Rattle.locked_replica.specs.Steps.{event_of, answer_of, IsReplyTo, NamesPhase};
ghost use Rattle.locked_replica.specs.declared.hub_reply.HubReply.{HubReply as Reply};

use crate::hub::Hub;
use crate::hub_reply::HubReply;
use crate::hub_step::HubStep;
use disk_trait::Disk;
use std::alloc::{AllocError, Global};

/// Makes these calls in order, and answers what each one answers, as a reply of the call's own
/// kind: a refused call is its own reply, and the calls go on. A reply to a device step names the
/// phase whose call was made. An error is out of memory (1): then a beginning of the calls is
/// made, with such replies.
pub fn run<D: Disk>(
    alloc: Global,
    hub: &mut Hub<D>,
    steps: &[HubStep],
) -> Result<Vec<HubReply>, AllocError>
    ensures all { IfOk result (λ replies. length replies.items ≡ length steps.now) }
    ensures ran { IfOk result (λ replies.
        Replied D.DiskFacts hub.old steps.now replies.items hub.new) }
    ensures beginning { OnErr result ((replies : List Reply)
        × Replied D.DiskFacts hub.old steps.now replies hub.new) }
{
    hub.survivors();
    let mut replies = Vec::with_capacity(alloc, steps.len())?;
    for step in steps {
        let reply = make(hub, step)?;
        replies.push_reserved(reply);
    }
    Ok(replies)
}

/// Makes one call. An error is out of memory (1) for the copy of an operation, and changes nothing.
fn make<D: Disk>(hub: &mut Hub<D>, step: &HubStep) -> Result<HubReply, AllocError>
    ensures call { IfOk result (λ reply.
        IsCall D.DiskFacts (event_of step.now) (answer_of reply) hub.old hub.new) }
    ensures kind { IfOk result (λ reply. IsReplyTo step.now reply) }
    ensures phase { IfOk result (λ reply. NamesPhase reply hub.old.store) }
    ensures err { OnErr result (hub.new ≡ hub.old) }
{
    Ok(match step {
        HubStep::Edit { session, edit } => HubReply::Edited(hub.edit(*session, edit)),
        HubStep::Merge { peer, op } => {
            let op = op.copy()?;
            HubReply::Merged(hub.merge(*peer, op))
        }
        HubStep::Begin => HubReply::Begun(hub.begin()),
        HubStep::DeviceStep => HubReply::Stepped(hub.device_step()),
        HubStep::Settle => HubReply::Settled(hub.settle()),
        HubStep::Ack(ticket) => HubReply::Acknowledged(hub.ack(*ticket)),
        HubStep::Tell(clock) => HubReply::Told(hub.tell(clock)),
        HubStep::Have => HubReply::Had(hub.have()),
    })
}
