//! The laws of what a shared hub promises.
ghost use Rattle.std.specs.Prelude.{List, ℕ, take, true};
ghost use Rattle.op_model.specs.Actions.{Asked};
ghost use Rattle.op_model.specs.Causality.{clock_of};
ghost use Rattle.op_model.specs.Machine.{Event, Answer, Ticket};
ghost use Rattle.op_model.specs.Machine.{ack, clock, edit, have, operations, tell};
ghost use Rattle.op_model.specs.Machine.{acknowledged as is_acknowledged, ticket};
ghost use Rattle.op_model.specs.Telling.{untold};
ghost use Rattle.op_model.specs.declared.op.Op.{Op};
ghost use Rattle.hub_parts.specs.Locked.{LockedHeld};
ghost use Rattle.shared_hub.specs.Committing.{CommitterHeld, IsTurn, Meeting};
ghost use Rattle.shared_hub.specs.Crashes.{HasSettled, HoldsImage, HoldsTold, LeftSince};
ghost use Rattle.shared_hub.specs.Crashes.{WasAnsweredIn, settled_then};
ghost use Rattle.hub_parts.specs.Flusher.{FlusherHeld};
ghost use Rattle.root_slots.specs.Root.{count_of};
ghost use Rattle.shared_hub.specs.Going.{ComesBack};
ghost use Rattle.shared_hub.specs.Promises.{IsSafe, IsTicketed, IsTold, WasAnswered};

use disk_trait::Disk;

/// What was answered to a call that entered it into a pass is so beside each later locked part of
/// the same hub, which `Guarded::audit` shows of the pass: the operations of a new edit are in its
/// list, those of an acknowledged ticket are settled, and so are those that were told or counted.
/// What is settled is in each beginning of the flusher's list that has the live root's operations.
pub fn what_was_promised_is_settled()
    ensures made { (l : LockedHeld) (session : ℕ) (e : Asked) (t : Ticket)
        → WasAnswered l (edit session e) (ticket t) → IsTicketed l e t }
    ensures acknowledged { (l : LockedHeld) (t : Ticket)
        → WasAnswered l (ack t) (is_acknowledged true) → IsSafe l t.end }
    ensures told { (l : LockedHeld) (c : List (ℕ × ℕ)) (ops : List Op)
        → WasAnswered l (tell c) (operations ops)
        → IsTold l (λ n. untold c (take n l.replica.list)) ops }
    ensures counted { (l : LockedHeld) (c : List (ℕ × ℕ)) → WasAnswered l have (clock c)
        → IsTold l (λ n. clock_of (take n l.replica.list)) c }
{}

/// What was answered outlives a crash at any moment since. For each answer that a pass entered
/// there is a meeting of the turn after which as many operations were settled as at the answer. A
/// crash at any moment since such a meeting leaves a file whose image is a causally closed
/// beginning of the replica's list: with the operations of each edit that was acknowledged, and
/// with each operation that was told or counted.
pub fn what_was_promised_outlives_a_crash<D: Disk>()
    ensures since { (l : LockedHeld) (c : CommitterHeld D) (event : Event) (answer : Answer)
        → (w : WasAnsweredIn D.DiskFacts l c event answer)
        → (meeting : Meeting D) × HasSettled c (settled_then w) meeting }
    ensures left { (l : LockedHeld) (c : CommitterHeld D) (n : ℕ) (file : List ℕ)
        → IsTurn D.DiskFacts l c → LeftSince D.DiskFacts c n file
        → HoldsImage l.replica n file }
    ensures acknowledged { (l : LockedHeld) (c : CommitterHeld D) (t : Ticket) (file : List ℕ)
        → (w : WasAnsweredIn D.DiskFacts l c (ack t) (is_acknowledged true))
        → LeftSince D.DiskFacts c (settled_then w) file → HoldsImage l.replica t.end file }
    ensures told { (l : LockedHeld) (c : CommitterHeld D) (its : List (ℕ × ℕ)) (ops : List Op)
        (file : List ℕ) → (w : WasAnsweredIn D.DiskFacts l c (tell its) (operations ops))
        → LeftSince D.DiskFacts c (settled_then w) file
        → HoldsTold l.replica (settled_then w) (untold its) ops file }
    ensures counted { (l : LockedHeld) (c : CommitterHeld D) (its : List (ℕ × ℕ))
        (file : List ℕ) → (w : WasAnsweredIn D.DiskFacts l c have (clock its))
        → LeftSince D.DiskFacts c (settled_then w) file
        → HoldsTold l.replica (settled_then w) clock_of its file }
{}

/// A crash at any moment of a turn leaves a file whose image is a causally closed beginning of the
/// list at its end, with all operations of the live root at its beginning.
pub fn a_turn_leaves_its_list<D: Disk>()
    ensures { (old : FlusherHeld D) (disk : D) (file : List ℕ)
        → (it : ComesBack D.DiskFacts old disk) → D.tells old.store.disk
        → D.left_since disk (D.time old.store.disk) file
        → HoldsImage it.beside.locked.replica (count_of old.store.current.body) file }
{}
