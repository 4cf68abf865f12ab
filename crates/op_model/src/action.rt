//! What a session asks to change at once.
ghost use Rattle.std.specs.Prelude.{◌≡◌, ◌<◌, ◌↔◌, [], IfSome, IsSome, drop, length, vec_len};
ghost use Rattle.fixed_numbers.specs.declared.limits.TheConstants.{MAX_CHANGES};
ghost use Rattle.op_model.specs.Actions.{asked};

use crate::edit::{Change, Edit};
use fixed_numbers::limits::MAX_CHANGES;
use std::alloc::Global;
use std::marker::Model;

/// From 1 to 1,024 changes of a document, made one after another, at once: all of them or none, and
/// nothing between. Contracts see what is asked for: the document, the number of operations that it
/// has to have, the token, and the list of changes.
#[derive(Debug, Drop)]
pub struct Action {
    first: Edit,
    others: Vec<Change>,
}

impl Model for Action {
    ghost use Rattle.std.specs.Prelude.{◌<◌, vec_len};
    ghost use Rattle.fixed_numbers.specs.declared.limits.TheConstants.{MAX_CHANGES};
    ghost use Rattle.op_model.specs.Actions.{asked, Asked};

    ghost Value = { Asked };

    ghost view = { λ a. asked a.first a.others.items };

    ghost invariant = { λ a. vec_len a.others < MAX_CHANGES };
}

impl Action {
    /// An edit alone. Takes no memory.
    pub fn one(alloc: Global, edit: Edit) -> Action
        ensures { result ≡ asked edit [] }
    {
        Action {
            first: edit,
            others: Vec::new(alloc),
        }
    }

    /// An edit and changes of the same document after it, or `None` where they are over 1,024
    /// together. Takes no memory.
    pub fn new(first: Edit, others: Vec<Change>) -> Option<Action>
        ensures few { IsSome result ↔ (vec_len others < MAX_CHANGES) }
        ensures action { IfSome result (λ action. action ≡ asked first others.items) }
    {
        if others.len() >= MAX_CHANGES {
            return None;
        }
        Some(Action { first, others })
    }

    /// The first change, as an edit. Constant.
    pub fn first(&self) -> &Edit
        ensures { self.now ≡ asked result.now (drop 1 self.now.changes) }
    {
        &self.first
    }

    /// The changes after the first one. Constant.
    pub fn others(&self) -> &[Change]
        ensures few { length result.now < MAX_CHANGES }
        ensures others { result.now ≡ drop 1 self.now.changes }
    {
        &self.others
    }
}
