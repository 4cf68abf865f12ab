//! What is told of all documents of a file, and of a file that was checked.
//!
//! It is given what is counted of them, and what the root slots say.
#![tactic(auto)]

mod check_line;
mod listing_lines;
mod putting;

pub use check_line::put_check;
pub use listing_lines::put_document;
