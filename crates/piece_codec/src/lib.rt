//! The codec of pieces: an operation as its record, and a run of typed characters as one record.
//!
//! It stands over `change_codec`, whose records it holds as they are, so single operations keep
//! their proofs.
#![tactic(auto)]

mod fields;
mod fits;
mod kind;
pub mod laws;
mod pieces;
mod record;
mod room;
mod run;
mod spelling;
pub mod stream_laws;
mod text;
mod typed;

pub use fits::every_piece_has_a_spelling;
pub use pieces::{pieces_length, put_pieces};
pub use record::take_piece;
pub use spelling::{piece_length, put_piece};
pub use typed::put_typed;
