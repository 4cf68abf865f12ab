//! What follows for the calls that a desk makes of its hub.
ghost use Rattle.std.specs.Prelude.{◌≡◌, ◌≤◌, List, ℕ, Option, Some, true};
ghost use Rattle.fixed_numbers.specs.declared.refusals.TheConstants.{FAILED};
ghost use Rattle.op_model.specs.Actions.{Asked};
ghost use Rattle.op_model.specs.Machine.{Event, Answer, State, Ticket, refused, known_ticket};
ghost use Rattle.op_model.specs.Machine.{unless_known, EditStep};
ghost use Rattle.locked_replica.specs.Hub.{Parts};
ghost use Rattle.locked_replica.specs.Run.{Calls, Ran};
ghost use Rattle.session_lines.specs.declared.answer.Answer.{Answer as LineAnswer};
ghost use Rattle.session_lines.specs.declared.answer.Answer.TheVariants.{Edited};
ghost use Rattle.session_threads.specs.ActsOnce.{HoldsOnceAnswered, HoldsForever, AnswersAgain};
ghost use Rattle.session_threads.specs.ActsOnce.{ActsOnce};
ghost use Rattle.session_threads.specs.Answered.{AnsweredStay};
ghost use Rattle.session_threads.specs.Exchanges.{Exchanges};
ghost use Rattle.session_threads.specs.HeldDesk.{HeldDesk};
ghost use Rattle.session_threads.specs.HubCalls.{IsQuiet};
ghost use Rattle.session_threads.specs.HubServing.{Serves, ServesEdit};
ghost use Rattle.session_threads.specs.Outcomes.{CutOff};

use crate::hub_desk::HubDesk;
use disk_trait::Disk;
use locked_replica::Hub;

/// Calls of a hub, one after another, are a run: a run of the machine, and a crash at any moment of
/// it leaves a beginning of the list with all that was settled by then. Costs nothing.
pub fn calls_are_a_run<D: Disk>(hub: &Hub<D>)
    ensures { (events : List (Event × Answer)) (new : Parts D)
        → Calls D.DiskFacts hub.now events new → Ran D.DiskFacts hub.now events new }
{
    hub.survivors();
}

/// All that a desk over a hub makes of the lines of a session, whole or cut off by a stream that
/// failed, is one run: a run of the machine, and a crash at any moment of it leaves a beginning of
/// the list with all that was settled by then. Costs nothing.
pub fn a_session_is_a_run<D: Disk>(desk: &HubDesk<D>)
    ensures answered { (lines : List (Option (List ℕ))) (text : List ℕ) (new : HeldDesk D)
        → Exchanges (Serves D.DiskFacts) desk.now lines text new
        → (events : List (Event × Answer)) × Ran D.DiskFacts desk.now.hub events new.hub }
    ensures cut_off { (lines : List (Option (List ℕ))) (text : List ℕ) (new : HeldDesk D)
        → CutOff (Serves D.DiskFacts) desk.now lines text new
        → (events : List (Event × Answer)) × Ran D.DiskFacts desk.now.hub events new.hub }
{
    calls_are_a_run(&desk.hub);
}

/// Once the device of a quiet hub failed, each edit is answered with 9, but for one that was made
/// before, under its token; and each changes nothing. Costs nothing.
pub fn edits_fail_behind_a_failure()
    ensures { (session : ℕ) (s next : State) (e : Asked) (answer : Answer) → IsQuiet s
        → s.failed ≡ true → EditStep s session e answer next
        → (answer ≡ unless_known (known_ticket s.held e) (refused FAILED)) × (next ≡ s) }
{}

/// An edit that was made before, under its token, and is settled is answered with the rev that it
/// had then, though the device failed and though the desk was asked to stop; and nothing is
/// written. Costs nothing.
pub fn settled_edits_are_answered<D: Disk>(desk: &HubDesk<D>)
    ensures { (e : Asked) (t : Ticket) (answer : LineAnswer) (new : HeldDesk D)
        → known_ticket desk.now.hub.replica e ≡ Some t → t.end ≤ desk.now.hub.replica.settled
        → ServesEdit D.DiskFacts desk.now e answer new
        → (answer ≡ Edited t.rev) × (new.hub.store ≡ desk.now.hub.store) }
{}

/// Each edit that a desk answers `rev n` stays: whatever lines of a session come before it, and
/// whatever lines after, whole or cut off, every file that a crash leaves at any moment since that
/// answer has the edit, and all that was in the list before it. Costs nothing.
pub fn answered_edits_stay<D: Disk>(desk: &HubDesk<D>)
    ensures { AnsweredStay D.DiskFacts desk.now }
{
    desk.hub.survivors();
}

/// An edit with a token acts once. Let a desk answer lines, and then `rev n` to an edit with a
/// token that isn't an insert of no text. Let any sessions over its hub follow, whole or cut off,
/// and any crashes at any moment of them, after each of which the file is opened again. Then an
/// edit with this token is answered `rev n` whenever it is sent, on any desk, also after a stop or
/// a failure; nothing is written, and the list has no operation more. Costs nothing.
pub fn edits_act_once<D: Disk>(desk: &HubDesk<D>)
    ensures once { ActsOnce D.DiskFacts desk.now }
    // The same in three steps: what holds from the first answer on, and what follows from it.
    ensures answered { HoldsOnceAnswered D.DiskFacts desk.now }
    ensures kept { HoldsForever D.DiskFacts }
    ensures again { AnswersAgain D.DiskFacts }
{
    desk.hub.survivors();
}
