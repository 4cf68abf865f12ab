//! The spans of a document: the greatest runs of its visible characters with equal marks; and what
//! changed in it.
//!
//! One pass over the text and its marks, where the definitions look at all marks of each character.
#![tactic(auto)]

mod active;
mod change_sweep;
mod changing;
mod deciding;
mod discussed;
mod error;
mod flatten;
mod formatting;
mod listing;
mod marked;
mod plan;
mod rank;
mod ranks;
mod run;
mod since;
mod spot;
mod sweep;
mod telling;
mod touched;

pub use changing::changes;
pub use error::SpansError;
pub use flatten::{spans, spans_in, spans_slow};
pub use since::Since;
