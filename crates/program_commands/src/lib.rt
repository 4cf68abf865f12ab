//! The commands that the program knows, as `clap` reads and explains them.
//!
//! It is apart, since what the macros of `clap` write takes long to prove and seldom changes.
#![tactic(auto)]

mod all_commands;
mod examples;

pub use all_commands::commands;
