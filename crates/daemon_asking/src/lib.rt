//! Asking a daemon: its answers are printed as they come.
//!
//! It takes any reader and writer, so that it is tested without a socket.
#![tactic(auto)]

mod ask_fault;
mod asking;
mod judging;
mod passing;

pub use ask_fault::AskFault;
pub use asking::ask_all;
pub use judging::is_ok;
