//! The tokens of a list that is gone through.
ghost use Rattle.std.specs.Prelude.{◌≡◌, ◌==◌, ℕ, List, [], ◌∷◌, ◌++◌, Some, IfOk, OnOk, OnErr};
ghost use Rattle.op_model.specs.declared.op.Op.{Op};
ghost use Rattle.edit_tokens.specs.Places.{place_at, AreTokens, FindsAlike, Puts};

use crate::place::Place;
use crate::sorted::Sorted;
use crate::tokens::Tokens;
use op_ids::{ReplicaId, Token};
use op_model::Op;
use std::alloc::{AllocError, Global};
use std::marker::Model;

/// The tokens of a replica's edits in a list that is gone through, in the order in which they come.
/// Contracts see them with the last one first. An edit takes 32 bytes, however many operations it
/// has.
#[derive(Debug, Drop)]
pub struct Gathered {
    places: Vec<(Token, Place)>,
}

impl Model for Gathered {
    ghost use Rattle.std.specs.Prelude.{ℕ, List, reverse};
    ghost use Rattle.edit_tokens.specs.declared.place.Place.{Place};

    ghost Value = { List (ℕ × Place) };

    ghost view = { λ g. reverse g.places.items };
}

impl Gathered {
    /// Those of an empty list. Takes no memory.
    pub fn new(alloc: Global) -> Gathered
        ensures { (replica : ℕ) → AreTokens result replica [] }
    {
        Gathered {
            places: Vec::new(alloc),
        }
    }

    /// Counts an operation that came behind others, where it is the last one so far: if it is the
    /// replica's own and has a token, its place is kept. An error is out of memory (1), and
    /// changes nothing. Constant.
    pub fn count(&mut self, replica: ReplicaId, op: &Op, place: Place) -> Result<(), AllocError>
        ensures counted { OnOk result ((ops : List Op) → place ≡ place_at (ops, op.now)
            → AreTokens self.old replica ops → AreTokens self.new replica (ops ++ op.now ∷ [])) }
        ensures err { OnErr result (self.new ≡ self.old) }
    {
        if is_own(replica, op) {
            self.put(op.token, place)?;
        }
        Ok(())
    }

    /// Puts a place, if there is a token, behind the others, or in place of the last one of the
    /// same token: most operations of an edit follow each other. An error is out of memory (1),
    /// and changes nothing.
    fn put(&mut self, token: Option<Token>, place: Place) -> Result<(), AllocError>
        ensures put { OnOk result (Puts token (Some place) self.old self.new) }
        ensures err { OnErr result (self.new ≡ self.old) }
    {
        let Some(token) = token else {
            return Ok(());
        };
        match self.places.last_mut() {
            Some(last) if last.0 == token => last.1 = place,
            _ => self.places.push((token, place))?,
        }
        Ok(())
    }

    /// The same tokens, to be looked up. An error is out of memory (1): they are sorted, which
    /// takes as much again until this returns.
    pub fn into_tokens(self, alloc: Global) -> Result<Tokens, AllocError>
        ensures { IfOk result (FindsAlike self) }
    {
        let mut places = self.places;
        places.reverse();
        let opened = Sorted::of(places)?;
        Ok(Tokens::since(alloc, opened))
    }
}

/// Whether an operation is this replica's own.
fn is_own(replica: ReplicaId, op: &Op) -> bool
    ensures { result ≡ (op.now.id.replica == replica) }
{
    op.id.replica() == replica
}
