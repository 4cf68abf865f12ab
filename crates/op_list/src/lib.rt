//! A list of operations, held as their records.
//!
//! Records take less memory than what they are read into. The operations that begin the runs of a
//! `run_list` are held so.
#![tactic(auto)]

mod ends;
mod head;
mod op_list;
mod op_slice;

pub use head::OpHead;
pub use op_list::OpList;
pub use op_slice::OpSlice;
