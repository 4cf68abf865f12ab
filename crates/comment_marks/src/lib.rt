//! The marks that a set of mark operations decides, and the comments that stand in it.
//!
//! It decides over a set, as the definitions do; `span_flatten` holds the same decisions while it
//! passes a text.
#![tactic(auto)]

mod choosing;
mod comments;
mod decisions;
pub mod laws;

pub use choosing::decided;
pub use comments::Comments;
