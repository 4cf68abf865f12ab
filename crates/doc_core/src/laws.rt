//! Laws of documents: calls that do nothing, and whose contracts are the laws.
ghost use Rattle.std.specs.Prelude.{◌≡◌, ◌≢◌, ℕ, true, List, [], ◌∷◌, ◌++◌};
ghost use Rattle.char_sequence.specs.Content.{FitAfter};
ghost use Rattle.op_model.specs.declared.edit.Edit.{Edit};
ghost use Rattle.op_model.specs.declared.op.Op.{Op};
ghost use Rattle.op_model.specs.Causality.{MayFollow, is_within_limits, named_by};
ghost use Rattle.op_model.specs.Made.{made};
ghost use Rattle.op_model.specs.Placing.{Fits};
ghost use Rattle.doc_core.specs.Drafting.{Drafted, IsDraftOf};
ghost use Rattle.doc_core.specs.Standing.{are_there, named_outside, Document, StandsFor};

/// An operation of another document leaves a document as it is: it stands for the longer list too.
/// So it does with a draft.
pub fn other_operations_stay()
    ensures document { (d : Document) (ops : List Op) (op : Op) → op.doc ≢ d.number
        → StandsFor d ops → StandsFor d (ops ++ op ∷ []) }
    ensures draft { (d : Drafted) (ops : List Op) (op : Op) → op.doc ≢ d.number
        → IsDraftOf d ops → IsDraftOf d (ops ++ op ∷ []) }
{}

/// An operation that may follow a list fits its document, and so do those of an edit that keep the
/// limits of a store.
pub fn followers_fit()
    ensures one { (ops : List Op) (doc : ℕ) (op : Op) → MayFollow ops op → op.doc ≡ doc
        → Fits ops doc op }
    ensures edits { (ops : List Op) (replica : ℕ) (edit : Edit)
        → is_within_limits (ops ++ made ops replica edit) ≡ true
        → FitAfter ops edit.doc (made ops replica edit) }
{}

/// What fits a document names characters that are there: an operation, and an edit whose operations
/// fit one after another, but for those that it inserts itself.
pub fn fitting_names_are_there()
    ensures one { (ops : List Op) (doc : ℕ) (op : Op) → Fits ops doc op
        → are_there ops doc (named_by op.body) ≡ true }
    ensures edit { (ops : List Op) (doc : ℕ) (edit : List Op) → FitAfter ops doc edit
        → are_there ops doc (named_outside [] edit) ≡ true }
{}
