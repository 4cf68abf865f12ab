//! Sessions: requests are read line by line, a desk serves them, and its answers are written.
//!
//! It has no thread: a session is a loop over any reader, writer and desk. Threads begin in
//! `serve_threads`.
#![tactic(auto)]

mod answer_text;
mod commit_start;
mod committing;
mod desk;
mod exchange;
mod fault;
mod held_line;
mod hub_desk;
mod hub_edit;
mod hub_serving;
mod laws;
mod looking;
mod pieces;
mod refusing;
mod room;
mod session;

pub use desk::Desk;
pub use fault::SessionFault;
pub use hub_desk::HubDesk;
pub use laws::{
    a_session_is_a_run, answered_edits_stay, calls_are_a_run, edits_act_once,
    edits_fail_behind_a_failure, settled_edits_are_answered,
};
pub use looking::{answer_export, answer_find};
pub use refusing::edit_refusal;
pub use session::{Session, serve_lines};
