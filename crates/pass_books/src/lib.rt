//! Books that stand under a lock, and the shares of them that threads hold: a book and its share
//! have the same entries, whoever had the lock meanwhile.
//!
//! The lock tells nobody what others did meanwhile; a share tells its owner what is still so of its
//! own entries. Beside numbers a book has moments: what stood under the lock when they were
//! entered.
#![tactic(auto)]

mod book;
mod book_names;
mod books;
mod column;
mod pass;
mod share;

pub use book::{Book, open};
pub use book_names::BookNames;
pub use books::Books;
pub use pass::Pass;
pub use share::Share;
