//! The pages of a file: their numbers, and the bytes that these are written in. A table page is
//! 1,024 numbers of 4 bytes, big-endian, of the data pages in the order of the stream. What is left
//! of the last table page is zero.
//!
//! A number of a page is a type of its own, so none can be taken for a count or for a place in
//! bytes.
#![tactic(auto)]

mod adopting;
mod checks;
mod error;
mod gaps;
pub mod laws;
mod loading;
mod page_numbers;
mod pages;
mod putting;
mod reading;

pub use checks::{are_pages, is_zero};
pub use error::PageError;
pub use page_numbers::{put_numbers, take_numbers};
pub use pages::Pages;
pub use reading::read_pages;
