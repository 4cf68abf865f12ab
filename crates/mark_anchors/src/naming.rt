//! Whether the characters that a mark operation names are there.
ghost use Rattle.std.specs.Prelude.{◌≡◌, ◌↔◌, ℕ, List, ◌++◌, false, IsErrOf, Some};
ghost use Rattle.std.specs.List.{list_all};
ghost use Rattle.char_sequence.specs.Content.{is_there};
ghost use Rattle.mark_anchors.specs.Naming.{NamesUnknown};
ghost use Rattle.op_model.specs.declared.op.Op.{Op};
ghost use Rattle.op_model.specs.Causality.{named_by_start, named_by_end};
ghost use Rattle.op_model.specs.Characters.{characters};
ghost use Rattle.op_model.specs.Placing.{has_id};

use char_sequence::{Sequence, SequenceError, Weave};
use op_ids::OpId;
use op_model::{Body, End, Start};

/// The characters of a document, among which one is looked for.
pub trait Characters {
    /// They are those that operations make of a document.
    ghost are_of: { Self → List Op → ℕ → Type 0 };

    /// Whether a character is there. Takes no memory.
    fn has(&self, id: OpId) -> bool
        ensures { (ops : List Op) (doc : ℕ) → are_of self.now ops doc
            → result ≡ is_there ops doc (Some id) };
}

impl Characters for Sequence {
    ghost use Rattle.char_sequence.specs.Content.{Holds};

    ghost are_of = { Holds };

    fn has(&self, id: OpId) -> bool {
        match self.find(id) {
            Some(_) => true,
            None => false,
        }
    }
}

impl Characters for Weave {
    ghost use Rattle.char_sequence.specs.Woven.{IsWovenOf};

    ghost are_of = { IsWovenOf };

    fn has(&self, id: OpId) -> bool {
        Weave::has(self, id)
    }
}

/// Refuses a mark operation that names a character that isn't there. Takes no memory.
pub(crate) fn check_names<C: Characters>(text: &C, body: &Body) -> Result<(), SequenceError>
    ensures unknown { (ops : List Op) (doc : ℕ) → C.are_of text.now ops doc
        → (IsErrOf result SequenceError.UnknownId ↔ NamesUnknown ops doc body.now) }
    ensures memory { IsErrOf result SequenceError.Memory → ⊥ }
{
    match body {
        Body::AddMark { start, end, .. } => check_ends(text, start, end),
        Body::RemoveMark { start, end, .. } => check_ends(text, start, end),
        _ => Ok(()),
    }
}

/// Refuses the ends of a mark operation where they name a character that isn't there.
fn check_ends<C: Characters>(text: &C, start: &Start, end: &End) -> Result<(), SequenceError>
    ensures unknown { (ops : List Op) (doc : ℕ) → C.are_of text.now ops doc
        → (IsErrOf result SequenceError.UnknownId
        ↔ (list_all (λ id. has_id (characters ops doc) id)
        (named_by_start start.now ++ named_by_end end.now) ≡ false)) }
    ensures memory { IsErrOf result SequenceError.Memory → ⊥ }
{
    if knows(text, &start.character()) && knows(text, &end.character()) {
        return Ok(());
    }
    Err(SequenceError::UnknownId)
}

/// Whether a character is there; no character always is.
fn knows<C: Characters>(text: &C, id: &Option<OpId>) -> bool
    ensures { (ops : List Op) (doc : ℕ) → C.are_of text.now ops doc
        → result ≡ is_there ops doc id.now }
{
    match id {
        None => true,
        Some(id) => text.has(*id),
    }
}
