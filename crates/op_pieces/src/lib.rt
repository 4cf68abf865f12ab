//! Operations in a row that one record can hold: any operation, or a run of typed characters.
//!
//! A pasted text is one record in place of hundreds, in files and over links, and still the same
//! operations.
#![tactic(auto)]

mod clocks;
mod cutter;
mod cutting;
mod laws;
mod lengths;
mod next;
mod piece;
mod unrolled;

pub use cutter::Cutter;
pub use cutting::cut;
pub use laws::{
    an_insert_makes_one_piece, pieces_are_longest, pieces_are_pieces, pieces_make_up_the_operations,
};
pub use next::{is_next, value_of};
pub use piece::Piece;
