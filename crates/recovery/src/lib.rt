//! The opening of a page file: the replica that it stands for, and its store. And what holds of all
//! replicas.
//!
//! Opening is the other half of the promise about crashes: what a commit left is read back here.
#![tactic(auto)]

mod laws;
mod open_fault;
mod opening;
mod worlds;

pub use laws::{a_file_has_one_image, a_file_with_an_image_has_no_fault, a_new_store_is_empty};
pub use open_fault::{OpenError, OpenFault};
pub use opening::{Opened, open};
pub use worlds::world;
