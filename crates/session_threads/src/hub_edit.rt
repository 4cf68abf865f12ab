//! An edit of a hub that is held alone.
ghost use Rattle.std.specs.Prelude.{◌≡◌, ◌≤◌, length, IsTrue};
ghost use Rattle.locked_replica.specs.Hub.{state_of};
ghost use Rattle.locked_replica.specs.Steps.{IsNotOfStore, number_of as number_of_hub};
ghost use Rattle.replica_core.specs.RefusedAt.{place_told};
ghost use Rattle.session_lines.specs.Saying.{number_of};
ghost use Rattle.session_threads.specs.HubCalls.{IsQuiet, is_edit_refusal};
ghost use Rattle.session_threads.specs.HubServing.{refused_answer, AnswersEdit, AnswersTicket};

use crate::committing::commit;
use crate::refusing::{edit_refusal, is_for_a_change};
use disk_trait::Disk;
use locked_replica::{Hub, HubRefusal};
use op_model::Action;
use replica_core::Ticket;
use session_lines::{Answer, Refusal};

/// Makes a session's edit and commits it to the end: it is answered only if it is acknowledged. An
/// edit that was made before, under its token, and is settled is answered without a commit, so also
/// after a failure. Any other is refused as `Hub::edit` does (9, 6, 5, 7, 10, 8, 1), where 5 and 7
/// name the change of several that they are for, or with 9 if not all can be settled.
pub(crate) fn answer_edit<D: Disk>(hub: &mut Hub<D>, session: u64, edit: &Action) -> Answer
    requires { IsQuiet (state_of hub.old) }
    ensures answer { AnswersEdit D.DiskFacts session hub.old edit.now result hub.new }
    ensures quiet { IsQuiet (state_of hub.new) }
{
    match hub.edit(session, edit) {
        Ok(ticket) => answer_ticket(hub, ticket),
        Err(refusal) => answer_refusal(hub, edit, refusal_of(refusal)),
    }
}

/// The answer to an edit that a hub refuses, which names the change of several that it is refused
/// for, if it is for one of them.
fn answer_refusal<D: Disk>(hub: &Hub<D>, edit: &Action, refusal: Refusal) -> Answer
    ensures { result ≡ refused_answer refusal
        (place_told hub.now.replica edit.now (number_of refusal)) }
{
    if !is_for_a_change(refusal) {
        return Answer::Refused(refusal);
    }
    match hub.refused_at(edit) {
        Some(at) => Answer::RefusedAt {
            refusal,
            at: at as u64,
        },
        None => Answer::Refused(refusal),
    }
}

/// Acknowledges the edit of a ticket: if it isn't settled yet, after a commit of all that there is.
fn answer_ticket<D: Disk>(hub: &mut Hub<D>, ticket: Ticket) -> Answer
    requires quiet { IsQuiet (state_of hub.old) }
    requires within { ticket.end ≤ length hub.old.replica.list }
    ensures answer { AnswersTicket D.DiskFacts hub.old ticket result hub.new }
    ensures quiet { IsQuiet (state_of hub.new) }
{
    let answer = Answer::Edited {
        rev: ticket.rev as u64,
    };
    // An edit that was made before may be settled: no failure of a commit is to hide its answer.
    if hub.ack(ticket) {
        return answer;
    }
    if !commit(hub) {
        return Answer::Refused(Refusal::Failed);
    }
    if !hub.ack(ticket) {
        unreachable!();
    }
    answer
}

/// Why an edit isn't served, by why a hub refuses it.
fn refusal_of(refusal: HubRefusal) -> Refusal
    requires number { IsTrue (is_edit_refusal (number_of_hub refusal)) }
    requires kind { IsNotOfStore refusal }
    ensures { number_of result ≡ number_of_hub refusal }
{
    match refusal {
        HubRefusal::Replica(refusal) => edit_refusal(refusal),
        HubRefusal::Full => Refusal::Busy,
        HubRefusal::Failed => Refusal::Failed,
        HubRefusal::Store(_) => unreachable!(),
    }
}
