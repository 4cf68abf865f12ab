//! What the maker of an edit gets.
use std::marker::Model;

/// What the maker of an edit gets: the length of the list right after the edit, how many operations
/// the edit's document had then, and whether the edit was made before, under its token. It is plain
/// data that anybody may write out. Contracts see the machine's ticket.
#[derive(Clone, Copy, Debug, PartialEq, Eq)]
pub struct Ticket {
    pub end: usize,
    pub rev: usize,
    pub known: bool,
}

impl Model for Ticket {
    ghost use Rattle.op_model.specs.Machine.{Ticket as TicketValue};

    ghost Value = { TicketValue };

    ghost view = { λ t. record { end = t.end; rev = t.rev; known = t.known } };

    ghost inverse = { λ t. record { end = t.end; rev = t.rev; known = t.known } };
}
