//! The numbers that are fixed for the whole program: limits, sizes and the numbers of refusals.
//! Contracts and code name them, so each stands here alone.
//!
//! A law says the value of each, so none is changed by a slip.
#![tactic(auto)]

pub mod laws;
pub mod limits;
pub mod refusals;
pub mod sizes;
