//! An action that is being made of changes.
ghost use Rattle.std.specs.Prelude.{◌<◌, vec_len};
ghost use Rattle.fixed_numbers.specs.declared.limits.TheConstants.{MAX_CHANGES};

use fixed_numbers::limits::MAX_CHANGES;
use op_model::{Action, Change, Edit};
use std::alloc::{AllocError, Global};

/// Changes of which an action is to be made: as many as one may have, at most.
#[derive(Drop)]
pub(crate) struct ActionDraft {
    first: Option<Change>,
    others: Vec<Change>,
    ghost few: { vec_len others < MAX_CHANGES },
}

impl ActionDraft {
    /// No change.
    pub(crate) fn new(alloc: Global) -> ActionDraft {
        ActionDraft {
            first: None,
            others: Vec::new(alloc),
        }
    }

    /// Whether no more changes go in.
    pub(crate) fn is_full(&self) -> bool {
        self.others.len() >= MAX_CHANGES - 1
    }

    /// Adds a change; where no more go in, it changes nothing.
    pub(crate) fn add(&mut self, change: Change) -> Result<(), AllocError> {
        if self.first.is_none() {
            self.first = Some(change);
        } else if self.others.len() < MAX_CHANGES - 1 {
            self.others.push(change).map_err(AllocError::from)?;
        }
        Ok(())
    }

    /// The action of a document, if there is a change.
    pub(crate) fn finish(self, doc: u32) -> Option<Action> {
        let ActionDraft { first, others } = self;
        let first = Edit {
            doc,
            rev: None,
            token: None,
            change: first?,
        };
        match Action::new(first, others) {
            Some(action) => Some(action),
            None => unreachable!(),
        }
    }
}
