//! Laws of actions: what several changes make that are asked for at once, and what that shows.
ghost use Rattle.std.specs.Prelude.{◌≡◌, ◌↔◌, ℕ, ◌+◌, ◌==◌, true, false, Option};
ghost use Rattle.std.specs.Prelude.{List, [], ◌∷◌, ◌++◌, length};
ghost use Rattle.std.specs.List.{list_all};
ghost use Rattle.op_ids.specs.Id.{is_below};
ghost use Rattle.op_model.specs.declared.op.Op.{Op};
ghost use Rattle.op_model.specs.declared.edit.Change.{Change};
ghost use Rattle.op_model.specs.declared.edit.Edit.{Edit};
ghost use Rattle.op_model.specs.Actions.{Asked, made_by_action, made_in_turn, sizes};
ghost use Rattle.op_model.specs.Causality.{FollowInTurn, HasOp, IsCausallyClosed};
ghost use Rattle.op_model.specs.Causality.{clock_of, is_within_limits};
ghost use Rattle.op_model.specs.Made.{greatest_counter, made, numbered};
ghost use Rattle.op_model.specs.Placing.{FitInTurn};
ghost use Rattle.op_model.specs.Text.{visible, text, rev};
ghost use Rattle.model_laws.specs.Acting.{IsMadeFor, NoneRefused, all_changed};
ghost use Rattle.model_laws.specs.Acting.{bodies_in_turn, length_after_all};
ghost use Rattle.model_laws.specs.Since.{RemoveNothingAgain, of_doc};

/// What an action makes is what its changes make, each of what those before it leave: one change
/// alone is an edit, changes after others are made of what those leave, and nothing refuses them
/// all if nothing refuses the first ones, nor the others after those. Their operations are numbered
/// in one go.
pub fn an_action_is_its_edits_in_turn()
    ensures single { (ops : List Op) (replica : ℕ) (action : Asked) (edit : Edit)
        → action.doc ≡ edit.doc → action.token ≡ edit.token → action.changes ≡ edit.change ∷ []
        → made_by_action ops replica action ≡ made ops replica edit }
    ensures appended { (ops : List Op) (replica doc : ℕ) (token : Option ℕ)
        (first more : List Change)
        → made_in_turn ops replica doc token (first ++ more)
        ≡ made_in_turn ops replica doc token first
        ++ made_in_turn (ops ++ made_in_turn ops replica doc token first) replica doc token more }
    ensures none_refused { (ops : List Op) (replica doc : ℕ) (token : Option ℕ)
        (first more : List Change)
        → NoneRefused ops replica doc token (first ++ more)
        ↔ (NoneRefused ops replica doc token first
        × NoneRefused (ops ++ made_in_turn ops replica doc token first) replica doc token more) }
    ensures numbered { (ops : List Op) (replica : ℕ) (action : Asked)
        → made_by_action ops replica action
        ≡ numbered replica action.doc action.token (greatest_counter ops + 1) (clock_of ops)
        (bodies_in_turn ops replica action.doc action.token action.changes) }
{}

/// The operations that an action makes may follow the list one after another, wherever they keep
/// the limits of a store: so a causally closed list stays so. If nothing refuses its changes in
/// turn, they keep the limits.
pub fn actions_keep_lists_closed()
    ensures follow { (ops : List Op) (replica : ℕ) (action : Asked)
        → is_within_limits (ops ++ made_by_action ops replica action) ≡ true
        → FollowInTurn ops (made_by_action ops replica action) }
    ensures closed { (ops : List Op) (replica : ℕ) (action : Asked) → IsCausallyClosed ops
        → is_within_limits (ops ++ made_by_action ops replica action) ≡ true
        → IsCausallyClosed (ops ++ made_by_action ops replica action) }
    ensures within { (ops : List Op) (replica : ℕ) (action : Asked) → IsCausallyClosed ops
        → NoneRefused ops replica action.doc action.token action.changes
        → is_within_limits (ops ++ made_by_action ops replica action) ≡ true }
{}

/// The text after an action is the text before it, changed by one of its changes after another, and
/// as long as they say. The texts of other documents stay.
pub fn actions_change_the_text()
    ensures changed { (ops : List Op) (replica : ℕ) (action : Asked) → IsCausallyClosed ops
        → NoneRefused ops replica action.doc action.token action.changes
        → text (ops ++ made_by_action ops replica action) action.doc
        ≡ all_changed (text ops action.doc) action.changes }
    ensures long { (ops : List Op) (replica : ℕ) (action : Asked) → IsCausallyClosed ops
        → NoneRefused ops replica action.doc action.token action.changes
        → length (visible (ops ++ made_by_action ops replica action) action.doc)
        ≡ length_after_all (length (visible ops action.doc)) action.changes }
    ensures others { (ops : List Op) (replica : ℕ) (action : Asked) (other : ℕ)
        → (action.doc == other) ≡ false
        → text (ops ++ made_by_action ops replica action) other ≡ text ops other }
{}

/// An action makes as many operations as its changes say, all of its document. Other documents have
/// the operations that they had.
pub fn actions_add_their_size()
    ensures many { (ops : List Op) (replica : ℕ) (action : Asked)
        → NoneRefused ops replica action.doc action.token action.changes
        → length (made_by_action ops replica action) ≡ sizes action.changes }
    ensures rev { (ops : List Op) (replica : ℕ) (action : Asked)
        → NoneRefused ops replica action.doc action.token action.changes
        → rev (ops ++ made_by_action ops replica action) action.doc
        ≡ rev ops action.doc + sizes action.changes }
    ensures others { (ops : List Op) (replica : ℕ) (action : Asked) (other : ℕ)
        → (action.doc == other) ≡ false
        → of_doc other (ops ++ made_by_action ops replica action) ≡ of_doc other ops }
{}

/// The operations that an action makes fit its document, one after another, after any list. Their
/// ids are greater than all in the list, and all have the replica, the document and the token.
pub fn made_by_actions_fit()
    ensures fit { (ops : List Op) (replica : ℕ) (action : Asked)
        → FitInTurn ops action.doc (made_by_action ops replica action) }
    ensures greater { (ops : List Op) (replica : ℕ) (action : Asked)
        → list_all (λ op. list_all (λ earlier. is_below earlier.id op.id) ops)
        (made_by_action ops replica action) ≡ true }
    ensures signed { (ops : List Op) (replica : ℕ) (action : Asked) (op : Op)
        → HasOp (made_by_action ops replica action) op
        → IsMadeFor replica action.doc action.token op }
{}

/// An action removes nothing again: what it removes a reader sees, and each character once.
pub fn actions_remove_nothing_again()
    ensures { (ops : List Op) (replica : ℕ) (action : Asked) → IsCausallyClosed ops
        → NoneRefused ops replica action.doc action.token action.changes
        → RemoveNothingAgain ops (made_by_action ops replica action) }
{}
