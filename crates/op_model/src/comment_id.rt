//! The names of comments.
ghost use Rattle.std.specs.Prelude.{◌≡◌, ℕ, List, IfOk};
ghost use Rattle.std.specs.Int.{w128, from_be_bytes, to_be_bytes};
ghost use Rattle.std.specs.Prelude.{◌==◌};
ghost use Rattle.std.proofs.Common.{rules};
ghost use Rattle.std.specs.Cmp.Rules.{comparing};
ghost use lib.Pointwise.{pointwise};

use std::alloc::AllocError;
use std::marker::Model;

/// The name of a comment: any sixteen bytes, the nil UUID among them. Contracts see it as its
/// number, the bytes read with the highest first; that is also its order.
#[derive(Clone, Copy, Debug, PartialEq, Eq, PartialOrd, Ord, Hash)]
pub struct CommentId {
    number: u128,
}

impl Model for CommentId {
    ghost Value = { ℕ };

    ghost view = { λ c. c.number };

    ghost inverse = { λ n. record { number = n } };
}

impl CommentId {
    /// The comment with these sixteen bytes.
    pub fn read(bytes: [u8; 16]) -> CommentId
        ensures { result ≡ from_be_bytes w128 bytes }
    {
        CommentId {
            number: u128::from_be_bytes(bytes),
        }
    }

    /// The sixteen bytes, the highest first.
    pub fn bytes(self) -> [u8; 16]
        ensures { result ≡ to_be_bytes w128 self }
    {
        self.number.to_be_bytes()
    }

    /// The sixteen bytes as a number, the highest first.
    pub fn number(self) -> u128
        ensures { result ≡ self }
    {
        self.number
    }
}

/// A list of comments, as the marks of a character name them. Contracts see the list of their
/// numbers.
#[derive(Debug, Drop)]
pub struct CommentIds {
    ids: Vec<CommentId>,
}

impl Model for CommentIds {
    ghost Value = { List ℕ };

    ghost view = { λ c. c.ids.items };
}

impl From<Vec<CommentId>> for CommentIds {
    ghost from_gives = { λ ids result. result ≡ ids.items };

    fn from(ids: Vec<CommentId>) -> CommentIds {
        CommentIds { ids }
    }
}

impl PartialEq for CommentIds {
    ghost eq = { pointwise ◌==◌ };

    ghost laws = { Prim.search (comparing, rules) };

    fn eq(&self, other: &CommentIds) -> bool {
        self.ids == other.ids
    }
}

impl Eq for CommentIds {
    ghost laws = { Prim.search (comparing, rules) };
}

impl CommentIds {
    /// The comments, in order.
    pub fn as_slice(&self) -> &[CommentId]
        ensures { result.now ≡ self.now }
    {
        &self.ids
    }

    /// The same comments again. An error is out of memory (1).
    pub fn copy(&self) -> Result<CommentIds, AllocError>
        ensures { IfOk result (λ copied. copied ≡ self.now) }
    {
        Ok(CommentIds {
            ids: self.ids.clone()?,
        })
    }
}
