//! Lists of calls, made at once, and the words for what they answer.
use crate::asks::{Call, Said};
use crate::play_alone::op_of;
use crate::test_hubs::{Failing, insert};
use group_commit::Phase;
use locked_replica::{HubReply, HubStep, run};
use op_ids::Clock;
use replica_core::{Merged, Ticket};
use std::alloc::Global;

/// Makes the first calls of a list, as many as said: how many replies are as the list says before
/// one isn't.
pub(crate) fn count_replies(
    alloc: Global,
    hub: &mut Failing,
    calls: &[Said],
    count: usize,
) -> Option<usize> {
    let steps = steps_of(alloc, hub.clock(), calls, count)?;
    let replies = run(alloc, hub, &steps).ok()?;
    Some(count_right(&replies, calls))
}

fn count_right(replies: &[HubReply], calls: &[Said]) -> usize {
    let mut count = 0usize;
    for (reply, (_, wanted)) in replies.iter().zip(calls) {
        if word(reply) != *wanted {
            return count;
        }
        count = count.saturating_add(1);
    }
    count
}

fn steps_of(alloc: Global, clock: &Clock, calls: &[Said], count: usize) -> Option<Vec<HubStep>> {
    let mut steps = Vec::new(alloc);
    for (call, _) in calls.iter().take(count) {
        steps.push(step_of(alloc, clock, call)?).ok()?;
    }
    Some(steps)
}

/// The step of a call of a hub with this clock.
fn step_of(alloc: Global, clock: &Clock, call: &Call) -> Option<HubStep> {
    Some(match call {
        Call::Insert(at, value) => HubStep::Edit {
            session: 1,
            edit: insert(alloc, *at, *value, 1)?,
        },
        Call::Begin => HubStep::Begin,
        Call::Step => HubStep::DeviceStep,
        Call::Settle => HubStep::Settle,
        Call::Ack => HubStep::Ack(Ticket {
            end: 1,
            rev: 1,
            known: false,
        }),
        Call::MergeOf(last) => HubStep::Merge {
            peer: 1,
            op: op_of(alloc, *last, "a", 0, clock)?,
        },
    })
}

/// The word for a reply.
fn word(reply: &HubReply) -> &'static str {
    match reply {
        HubReply::Edited(Ok(_)) => "made",
        HubReply::Begun(Ok(Some(_))) => "begun",
        HubReply::Stepped(Ok(phase)) => phase_word(*phase),
        HubReply::Settled(Ok(_)) => "settled",
        HubReply::Acknowledged(true) => "acknowledged",
        HubReply::Merged(Ok(Merged::Applied)) => "applied",
        HubReply::Merged(Ok(Merged::Known)) => "known",
        _ => "another reply",
    }
}

/// The word for the device call of a phase.
fn phase_word(phase: Phase) -> &'static str {
    match phase {
        Phase::Idle => "idle",
        Phase::Pages(0) => "page 0",
        Phase::Pages(1) => "page 1",
        Phase::Pages(_) => "another page",
        Phase::Close => "close",
        Phase::Sync1 => "sync 1",
        Phase::Body => "body",
        Phase::Sync2 => "sync 2",
        Phase::Gate => "gate",
        Phase::Sync3 => "sync 3",
    }
}
