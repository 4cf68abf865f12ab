//! What an edit asks for.
ghost use Rattle.std.specs.Prelude.{◌≡◌, ◌<◌};
ghost use Rattle.op_model.specs.Made.{is_at_rev, is_small, size_of};

use crate::edit::{Change, Edit};
use fixed_numbers::limits::MAX_EDIT;

impl Change {
    /// How many operations the change makes, where it lies within the text: at least one. Constant.
    pub fn size(&self) -> usize
        ensures value { result ≡ size_of self.now }
        ensures some { 0 < result }
    {
        match self {
            Change::Insert { text, .. } => text.as_slice().len(),
            Change::Delete { count, .. } => count.get() as usize,
            _ => 1,
        }
    }

    /// Whether the change inserts or removes at most 256 characters. Constant.
    pub fn is_small(&self) -> bool
        ensures { result ≡ is_small self.now }
    {
        match self {
            Change::Insert { text, .. } => text.as_slice().len() <= MAX_EDIT,
            Change::Delete { count, .. } => count.get() as usize <= MAX_EDIT,
            _ => true,
        }
    }
}

impl Edit {
    /// Whether a document with `count` operations is at the number that the edit asks for, if it
    /// asks. Constant.
    pub fn is_at_rev(&self, count: usize) -> bool
        ensures { result ≡ is_at_rev count self.now.rev }
    {
        match self.rev {
            None => true,
            Some(asked) => count == asked as usize,
        }
    }
}
