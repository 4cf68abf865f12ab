//! Edits of which places are named by a character beside them, and what they are by numbers.
//!
//! A character is there or not whatever others wrote meanwhile, so an edit beside it needs no
//! `rev`. What is made is an edit by numbers all the same.
#![tactic(auto)]

mod laws;
mod moving;
mod placed_action;
mod spots;

pub use laws::places_that_are_not_there_are_refused;
pub use moving::{NOWHERE, begin, moved_through, neighbour_of};
pub use placed_action::PlacedAction;
pub use spots::{PlacedChange, Spots, with_numbers};
