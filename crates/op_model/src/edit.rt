//! What a session asks to change.
ghost use Rattle.std.specs.Prelude.{◌≡◌, ℕ, List, ◌<◌, IfOk, IfSome, IsSome, ◌↔◌, length, vec_len};
ghost use Rattle.std.specs.Prelude.{◌==◌};
ghost use Rattle.std.proofs.Common.{rules};
ghost use Rattle.std.specs.Cmp.Rules.{comparing};
ghost use lib.Pointwise.{pointwise};

use crate::mark::{Mark, MarkKey};
use crate::text::Text;
use op_ids::Token;
use std::alloc::AllocError;
use std::marker::Model;
use std::num::NonZeroU32;

/// The text of an insert: at least one character. Contracts see the list of their codes.
#[derive(Debug, Drop)]
pub struct EditText {
    characters: Vec<char>,
}

impl Model for EditText {
    ghost Value = { List ℕ };

    ghost view = { λ t. t.characters.items };

    ghost invariant = { λ t. 0 < vec_len t.characters };
}

impl PartialEq for EditText {
    ghost eq = { pointwise ◌==◌ };

    ghost laws = { Prim.search (comparing, rules) };

    fn eq(&self, other: &EditText) -> bool {
        self.characters == other.characters
    }
}

impl Eq for EditText {
    ghost laws = { Prim.search (comparing, rules) };
}

impl EditText {
    /// The text of these characters, or `None` where there is none. Takes no memory.
    pub fn new(characters: Vec<char>) -> Option<EditText>
        ensures some { IsSome result ↔ (0 < vec_len characters) }
        ensures same { IfSome result (λ text. text ≡ characters.items) }
    {
        if characters.is_empty() {
            return None;
        }
        Some(EditText { characters })
    }

    /// The characters, in order: at least one.
    pub fn as_slice(&self) -> &[char]
        ensures same { result.now ≡ self.now }
        ensures some { 0 < length self.now }
    {
        &self.characters
    }

    /// The same text again. An error is out of memory (1).
    pub fn copy(&self) -> Result<EditText, AllocError>
        ensures { IfOk result (λ copied. copied ≡ self.now) }
    {
        Ok(EditText {
            characters: self.characters.clone()?,
        })
    }
}

/// What a session asks to be changed.
#[derive(Debug, Drop, PartialEq, Eq)]
pub struct Edit {
    /// The number of the document, from 1 on; 0 is refused as a limit.
    pub doc: u32,
    /// Where it is there, the edit is refused unless the document has just this number of
    /// operations.
    pub rev: Option<u32>,
    /// The name by which the edit acts once, if it has one: all its operations carry it.
    pub token: Option<Token>,
    pub change: Change,
}

/// A change of a document. Indexes count visible characters from 0.
#[derive(Debug, Drop, PartialEq, Eq)]
pub enum Change {
    /// Inserts text before the character at an index, or at the end.
    Insert { at: u32, text: EditText },
    /// Removes `count` characters from an index on.
    Delete { at: u32, count: NonZeroU32 },
    /// Marks the characters from an index up to another, that one not.
    Mark { from: u32, to: u32, mark: Mark },
    /// Takes a mark from the characters from an index up to another, that one not.
    Unmark { from: u32, to: u32, key: MarkKey },
}

impl Change {
    /// The same change again. An error is out of memory (1).
    pub fn copy(&self) -> Result<Change, AllocError>
        ensures { IfOk result (λ copied. copied ≡ self.now) }
    {
        Ok(match self {
            Change::Insert { at, text } => Change::Insert {
                at: *at,
                text: text.copy()?,
            },
            Change::Delete { at, count } => Change::Delete {
                at: *at,
                count: *count,
            },
            Change::Mark { from, to, mark } => Change::Mark {
                from: *from,
                to: *to,
                mark: mark.copy()?,
            },
            Change::Unmark { from, to, key } => Change::Unmark {
                from: *from,
                to: *to,
                key: *key,
            },
        })
    }
}

impl Edit {
    /// The same edit again. An error is out of memory (1).
    pub fn copy(&self) -> Result<Edit, AllocError>
        ensures { IfOk result (λ copied. copied ≡ self.now) }
    {
        Ok(Edit {
            doc: self.doc,
            rev: self.rev,
            token: self.token,
            change: self.change.copy()?,
        })
    }
}
