//! The tokens of a replica's edits.
ghost use Rattle.std.specs.Prelude.{◌≡◌, ℕ, [], Some, IfOk, IfSome, IsSome, OnOk, OnErr};
ghost use Rattle.std.specs.Option.{option_and_then};
ghost use Rattle.edit_tokens.specs.Places.{place_of, AreTokens, FindsAlike, Puts};

use crate::place::Place;
use crate::sorted::Sorted;
use op_ids::Token;
use std::alloc::{AllocError, Global};
use std::collections::BTreeMap;
use std::marker::Model;

/// The tokens of a replica's edits, and where each of these edits stands in its list. Contracts see
/// the tokens, each with its place; of equal ones the first counts.
#[derive(Debug, Drop)]
pub struct Tokens {
    /// Those of the list at its opening: 32 bytes each.
    opened: Sorted,
    /// Those of edits since then: some 60 bytes each.
    since: BTreeMap<Token, Place>,
}

impl Model for Tokens {
    ghost use Rattle.std.specs.Prelude.{ℕ, List, ◌++◌};
    ghost use Rattle.edit_tokens.specs.declared.place.Place.{Place};

    ghost Value = { List (ℕ × Place) };

    ghost view = { λ t. t.opened ++ t.since.entries };
}

impl Tokens {
    /// Those of a replica that made no edit. Takes no memory.
    pub fn new(alloc: Global) -> Tokens
        ensures { (replica : ℕ) → AreTokens result replica [] }
    {
        Tokens::since(alloc, Sorted::new(alloc))
    }

    /// Those of a list at its opening, and none since. Takes no memory.
    pub(crate) fn since(alloc: Global, opened: Sorted) -> Tokens
        ensures { FindsAlike opened result }
    {
        Tokens {
            opened,
            since: BTreeMap::new(alloc),
        }
    }

    /// Where the edit with this token stands, if one is kept. Takes no memory. A search by halves,
    /// and one in an ordered map.
    pub fn find(&self, token: Token) -> Option<Place>
        ensures { result ≡ place_of self.now token }
    {
        match self.opened.find(token) {
            Some(place) => Some(place),
            None => self.since.get(&token).copied(),
        }
    }

    /// Keeps where an edit stands, if it has a token, in place of what was kept for the token
    /// before, which is returned. An error is out of memory (1), which only a new token takes, and
    /// changes nothing. A search by halves, and one in an ordered map.
    pub fn keep(&mut self, token: Option<Token>, place: Place) -> Result<Option<Place>, AllocError>
        ensures kept { OnOk result (Puts token (Some place) self.old self.new) }
        ensures before { IfOk result (λ before.
            before ≡ option_and_then (place_of self.old) token) }
        ensures err { OnErr result (self.new ≡ self.old) }
    {
        let Some(token) = token else {
            return Ok(None);
        };
        match self.opened.replace(token, place) {
            Some(before) => Ok(Some(before)),
            None => {
                let before = self.since.insert(token, place)?;
                Ok(before)
            }
        }
    }

    /// Takes back what `keep` kept for a token, if there is one: what was kept before stands again.
    /// Takes no memory. A search by halves, and one in an ordered map; linear only for a token of
    /// the opening of which nothing was kept before.
    pub fn take_back(&mut self, token: Option<Token>, before: Option<Place>)
        requires { IfSome token (λ t. IsSome (place_of self.old t)) }
        ensures { Puts token before self.old self.new }
    {
        if let Some(token) = token {
            match before {
                Some(place) => self.put_back(token, place),
                None => {
                    self.opened.remove(token);
                    self.since.remove(&token);
                }
            }
        }
    }

    /// Keeps a place for a token that is there. Takes no memory.
    fn put_back(&mut self, token: Token, place: Place)
        requires { IsSome (place_of self.old token) }
        ensures { Puts (Some token) (Some place) self.old self.new }
    {
        match self.opened.replace(token, place) {
            Some(_) => {}
            None => match self.since.insert(token, place) {
                Ok(_) => {}
                Err(_) => unreachable!(),
            },
        }
    }
}
