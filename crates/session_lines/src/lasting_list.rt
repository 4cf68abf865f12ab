//! Some places that last, of a request or an answer.
ghost use Rattle.std.specs.Prelude.{◌≡◌};

use op_model::Lasting;
use std::marker::Model;

/// Places of a text that last. Contracts see the list of them.
#[derive(Debug, Drop)]
pub struct LastingList {
    places: Vec<Lasting>,
}

impl Model for LastingList {
    ghost use Rattle.std.specs.Prelude.{List};
    ghost use Rattle.op_model.specs.declared.lasting.Lasting.{Lasting};

    ghost Value = { List Lasting };

    ghost view = { λ l. l.places.items };
}

impl From<Vec<Lasting>> for LastingList {
    ghost from_gives = { λ places result. result ≡ places.items };

    fn from(places: Vec<Lasting>) -> LastingList {
        LastingList { places }
    }
}

impl LastingList {
    /// The places, in order.
    pub fn as_slice(&self) -> &[Lasting]
        ensures { result.now ≡ self.now }
    {
        &self.places
    }
}
