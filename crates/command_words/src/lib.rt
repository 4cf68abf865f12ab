//! From the words of a command line to what they ask for.
//!
//! Here alone `clap`'s answer is looked into; what is below speaks of orders, and what is above
//! acts on them.
#![tactic(auto)]

mod command_line;
mod order_fault;

pub use command_line::order;
pub use order_fault::OrderFault;
