//! Tokens in rising order.
ghost use Rattle.std.specs.Prelude.{◌≡◌, [], Some, None, IfOk, IfSome};
ghost use Rattle.edit_tokens.specs.Places.{place_of, FindsAlike, Puts, IsAt};

use crate::place::Place;
use op_ids::Token;
use std::alloc::{AllocError, Global};
use std::marker::Model;

/// Tokens in rising order, each with its place. Of equal ones the first counts. 32 bytes a token.
#[derive(Debug, Drop)]
pub struct Sorted {
    places: Vec<(Token, Place)>,
}

impl Model for Sorted {
    ghost use Rattle.std.specs.Prelude.{ℕ, List};
    ghost use Rattle.edit_tokens.specs.declared.place.Place.{Place};
    ghost use Rattle.edit_tokens.specs.Places.{AreSorted};

    ghost Value = { List (ℕ × Place) };

    ghost view = { λ s. s.places.items };

    ghost invariant = { λ s. AreSorted s.places.items };
}

impl Sorted {
    /// No tokens. Takes no memory.
    pub(crate) fn new(alloc: Global) -> Sorted
        ensures { result ≡ [] }
    {
        Sorted {
            places: Vec::new(alloc),
        }
    }

    /// These, sorted. Of equal ones the first counts. An error is out of memory (1): the sort takes
    /// as much again. As many steps as a sort takes.
    pub(crate) fn of(mut places: Vec<(Token, Place)>) -> Result<Sorted, AllocError>
        ensures { IfOk result (FindsAlike places.items) }
    {
        places.sort_by_key(|entry| entry.0)?;
        Ok(Sorted { places })
    }

    /// Where a token stands, the first time, if it does. A search by halves.
    fn index_of(&self, token: Token) -> Option<usize>
        ensures { IsAt self.now token result }
    {
        let index = self.places.partition_point(|entry| entry.0 < token);
        if index < self.places.len() && self.places[index].0 == token {
            return Some(index);
        }
        None
    }

    /// The place of a token, if it is there. A search by halves.
    pub(crate) fn find(&self, token: Token) -> Option<Place>
        ensures { result ≡ place_of self.now token }
    {
        let index = self.index_of(token)?;
        Some(self.places[index].1)
    }

    /// Gives a token that is there another place, and returns the one that it had. Another token
    /// changes nothing. Takes no memory. A search by halves.
    pub(crate) fn replace(&mut self, token: Token, place: Place) -> Option<Place>
        ensures before { result ≡ place_of self.old token }
        ensures put { IfSome result (λ _. Puts (Some token) (Some place) self.old self.new) }
        ensures none { result ≡ None → self.new ≡ self.old }
    {
        let index = self.index_of(token)?;
        let before = self.places[index].1;
        self.places[index].1 = place;
        Some(before)
    }

    /// Takes a token out, if it is there. Takes no memory. A search by halves, and linear in all
    /// where it is there.
    pub(crate) fn remove(&mut self, token: Token)
        ensures { Puts (Some token) None self.old self.new }
    {
        match self.index_of(token) {
            Some(_) => self.places.retain(|entry| entry.0 != token),
            None => {}
        }
    }
}
