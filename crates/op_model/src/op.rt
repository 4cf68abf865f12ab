//! An operation.
ghost use Rattle.std.specs.Prelude.{◌≡◌, IfOk, IfErr, IsSome};
ghost use Rattle.op_model.specs.Characters.{character_of};
ghost use Rattle.op_model.specs.Marks.{marking_of};

use crate::anchor::{End, Start};
use crate::character::Character;
use crate::mark::{Mark, MarkKey};
use crate::marking::Marking;
use op_ids::{Clock, OpId, Token};
use std::alloc::AllocError;

/// An operation, as one replica makes it and all others apply it.
#[derive(Debug, Drop, PartialEq, Eq)]
pub struct Op {
    pub id: OpId,
    /// The number of its document, from 1 on. A document of number 0 is refused when the operation
    /// is merged.
    pub doc: u32,
    /// The token of the edit that it was made for, if that had one.
    pub token: Option<Token>,
    /// The clock of its replica just before it was made, over all documents.
    pub deps: Clock,
    pub body: Body,
}

/// What an operation does.
#[derive(Debug, Drop, PartialEq, Eq)]
pub enum Body {
    /// Inserts a character behind another, or at the beginning where there is no origin. The
    /// operation's id becomes the character's.
    Insert {
        origin: Option<OpId>,
        value: char,
    },
    /// Removes a character, which stays as a tombstone.
    Remove {
        target: OpId,
    },
    /// Puts a mark on all characters between two anchors.
    AddMark {
        mark: Mark,
        start: Start,
        end: End,
    },
    /// Takes a mark from all characters between two anchors.
    RemoveMark {
        key: MarkKey,
        start: Start,
        end: End,
    },
}

impl Body {
    /// The same body again. An error is out of memory (1).
    pub fn copy(&self) -> Result<Body, AllocError>
        ensures { IfOk result (λ copied. copied ≡ self.now) }
    {
        Ok(match self {
            Body::Insert { origin, value } => Body::Insert {
                origin: *origin,
                value: *value,
            },
            Body::Remove { target } => Body::Remove { target: *target },
            Body::AddMark { mark, start, end } => Body::AddMark {
                mark: mark.copy()?,
                start: *start,
                end: *end,
            },
            Body::RemoveMark { key, start, end } => Body::RemoveMark {
                key: *key,
                start: *start,
                end: *end,
            },
        })
    }
}

impl Op {
    /// The same operation again. An error is out of memory (1).
    pub fn copy(&self) -> Result<Op, AllocError>
        ensures { IfOk result (λ copied. copied ≡ self.now) }
    {
        Ok(Op {
            id: self.id,
            doc: self.doc,
            token: self.token,
            deps: self.deps.copy()?,
            body: self.body.copy()?,
        })
    }

    /// The character that the operation makes, if it is an insert.
    pub fn character(&self) -> Option<Character>
        ensures { result ≡ character_of self.now.id self.now.body }
    {
        match &self.body {
            Body::Insert { origin, value } => Some(Character {
                id: self.id,
                origin: *origin,
                value: *value,
            }),
            _ => None,
        }
    }

    /// What the operation does as a mark operation, if it is one. An error is out of memory (1),
    /// which only a mark operation takes.
    pub fn marking(&self) -> Result<Option<Marking>, AllocError>
        ensures same { IfOk result (λ marking. marking ≡ marking_of self.now.id self.now.body) }
        ensures memory { IfErr result (λ _. IsSome (marking_of self.now.id self.now.body)) }
    {
        Ok(match &self.body {
            Body::AddMark { mark, start, end } => Some(Marking {
                id: self.id,
                key: mark.key(),
                mark: Some(mark.copy()?),
                start: *start,
                end: *end,
            }),
            Body::RemoveMark { key, start, end } => Some(Marking {
                id: self.id,
                key: *key,
                mark: None,
                start: *start,
                end: *end,
            }),
            _ => None,
        })
    }
}
