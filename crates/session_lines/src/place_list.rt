//! Where places stand, as an answer tells it.
ghost use Rattle.std.specs.Prelude.{◌≡◌};

use std::marker::Model;

/// For each of some places how many visible characters stand before it, if it is known. Contracts
/// see the list of them.
#[derive(Drop)]
pub struct PlaceList {
    places: Vec<Option<usize>>,
}

impl Model for PlaceList {
    ghost use Rattle.std.specs.Prelude.{List, ℕ, Option};

    ghost Value = { List (Option ℕ) };

    ghost view = { λ l. l.places.items };
}

impl From<Vec<Option<usize>>> for PlaceList {
    ghost from_gives = { λ places result. result ≡ places.items };

    fn from(places: Vec<Option<usize>>) -> PlaceList {
        PlaceList { places }
    }
}

impl PlaceList {
    /// The places, in order.
    pub fn as_slice(&self) -> &[Option<usize>]
        ensures { result.now ≡ self.now }
    {
        &self.places
    }
}
