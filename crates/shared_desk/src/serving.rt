//! The commands that a desk over a shared hub serves.
ghost use Rattle.std.specs.Prelude.{◌≡◌, ◌≢◌, ◌↔◌, true};
ghost use Rattle.hub_parts.specs.Refusal.{number_of as number_of_locked};
ghost use Rattle.session_lines.specs.Saying.{number_of};
ghost use Rattle.session_lines.specs.declared.refusal.Refusal.TheVariants.{Stopping};
ghost use Rattle.session_threads.specs.HubCalls.{is_edit_refusal as is_hub_refusal};
ghost use Rattle.session_threads.specs.HubServing.{refused_answer as refused_answer_of};
ghost use Rattle.shared_hub.specs.Refusal.{number_of as number_of_shared};
ghost use Rattle.shared_hub.specs.declared.refusal.SharedRefusal.TheVariants.{Stopping as AskedToStop};
ghost use Rattle.shared_desk.specs.Serving.{is_edit_refusal, ServesPlaced, ServesStop};

use crate::desk::SharedDesk;
use crate::ending::End;
use hub_parts::LockedRefusal;
use pass_books::BookNames;
use placed_edits::PlacedAction;
use session_lines::{Answer, Command, Refusal};
use session_threads::{Desk, edit_refusal};
use shared_hub::{Checkpoint, Point, SharedRefusal};
use std::alloc::Global;
use std::sync::Wait;

impl<'a, R: Wait, J: BookNames, C: Checkpoint> Desk for SharedDesk<'a, R, J, C> {
    ghost use Rattle.shared_desk.specs.Serving.{Serves};

    ghost serves = { Serves };

    fn line_read(&mut self) {
        self.daemon.checkpoint.pass(Point::LineRead);
    }

    fn serve(&mut self, alloc: Global, command: Command) -> Answer {
        match command {
            Command::Edit(placed) => self.edit(alloc, &placed),
            Command::Text { doc, at_rev } => self.text(doc, at_rev),
            Command::Spans { doc, at_rev } => self.spans(doc, at_rev),
            Command::Versions { doc, every } => self.versions(doc, every),
            Command::Changes { doc, since } => self.changes(doc, since),
            Command::Anchors { doc, at, side } => self.anchors(doc, &at, side),
            Command::Places { doc, anchors } => self.places(doc, &anchors),
            Command::Find { doc, text, from } => self.find(alloc, doc, &text, from),
            Command::Export { doc, form } => self.export(alloc, doc, form),
            Command::Status => self.status(),
            Command::Peers => self.peers(alloc),
            Command::Documents => self.documents(),
            Command::Room => self.room(),
            Command::Stop => self.stop(),
        }
    }
}

impl<'a, R: Wait, J: BookNames, C: Checkpoint> SharedDesk<'a, R, J, C> {
    /// Makes an edit, at places that last or by numbers, and waits until it is settled: it is
    /// answered only if it is acknowledged. One that was made before, under its token, isn't
    /// refused after a stop, and if it is settled, not after a failure. One that finds no steps
    /// left (10) asks the daemon to open its file anew.
    fn edit(&mut self, alloc: Global, placed: &PlacedAction) -> Answer
        ensures { ServesPlaced self.old placed.now result self.new }
    {
        match self
            .daemon
            .shared
            .edit_placed(self.daemon.rt, alloc, &mut self.pass, placed)
        {
            Ok(ticket) => {
                self.daemon.checkpoint.pass(Point::BeforeWait);
                if self
                    .daemon
                    .shared
                    .acknowledge(self.daemon.rt, &mut self.pass, ticket)
                {
                    Answer::Edited {
                        rev: ticket.rev as u64,
                    }
                } else {
                    Answer::Refused(Refusal::Failed)
                }
            }
            Err(refusal) => {
                let place = refusal.place();
                let refusal = refusal_of(refusal);
                if refusal == Refusal::Steps {
                    self.daemon.ending.ask(self.daemon.rt, End::Renewal);
                }
                refused_answer(refusal, place)
            }
        }
    }

    /// Takes no more edits from anybody, waits until all is settled, and asks the daemon to end.
    fn stop(&mut self) -> Answer
        ensures { ServesStop self.old result self.new }
    {
        let is_settled = self.daemon.shared.stop(self.daemon.rt);
        self.daemon.ending.ask(self.daemon.rt, End::Stop);
        if is_settled {
            Answer::Stopped
        } else {
            Answer::Refused(Refusal::Failed)
        }
    }
}

/// The answer to an edit that is refused, which names the change of several that it is for, if it
/// is for one of them.
fn refused_answer(refusal: Refusal, place: Option<usize>) -> Answer
    ensures { result ≡ refused_answer_of refusal place }
{
    match place {
        Some(at) => Answer::RefusedAt {
            refusal,
            at: at as u64,
        },
        None => Answer::Refused(refusal),
    }
}

/// Why an edit isn't served, by why the hub refuses it.
fn refusal_of(refusal: SharedRefusal) -> Refusal
    requires { is_edit_refusal refusal ≡ true }
    ensures number { number_of result ≡ number_of_shared refusal }
    ensures stopping { (result ≡ Stopping) ↔ (refusal ≡ AskedToStop) }
{
    match refusal {
        SharedRefusal::Locked(refusal) => refusal_of_locked(refusal),
        SharedRefusal::Change(refusal, _) => refusal_of_locked(refusal),
        SharedRefusal::Stopping => Refusal::Stopping,
    }
}

/// Why an edit isn't served, by why the locked part of the hub refuses it.
fn refusal_of_locked(refusal: LockedRefusal) -> Refusal
    requires { is_hub_refusal (number_of_locked refusal) ≡ true }
    ensures number { number_of result ≡ number_of_locked refusal }
    ensures going_on { result ≢ Stopping }
{
    match refusal {
        LockedRefusal::Replica(refusal) => edit_refusal(refusal),
        LockedRefusal::Full => Refusal::Busy,
        LockedRefusal::Failed => Refusal::Failed,
    }
}
