//! Edits that were made before.
ghost use Rattle.std.specs.Prelude.{◌≡◌};
ghost use Rattle.op_model.specs.Machine.{known_ticket};

use crate::replica::Replica;
use crate::ticket::Ticket;
use op_model::Action;

impl Replica {
    /// The ticket that an edit had when it was made, where it has a token under which one was made.
    /// Takes no memory. Constant for an edit without a token, else a search by halves and one in an
    /// ordered map.
    pub fn known(&self, edit: &Action) -> Option<Ticket>
        ensures { result ≡ known_ticket self.now edit.now }
    {
        let Some(token) = edit.first().token else {
            return None;
        };
        match self.tokens.find(token) {
            Some(place) => Some(Ticket {
                end: place.end as usize,
                rev: place.rev as usize,
                known: true,
            }),
            None => None,
        }
    }
}
