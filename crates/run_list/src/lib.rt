//! A list of operations, held as runs of typed characters, and their tokens beside them.
//!
//! A character that is typed behind another one takes four bytes, and no record of its own; where
//! its token is not that of the operation before, twenty more. So a list may have sixteen million
//! operations, though each edit has a token of its own.
#![tactic(auto)]

mod bare_extending;
mod bare_following;
mod bare_list;
mod bare_putting;
mod bare_reading;
mod bare_slice;
mod behind;
mod column_extending;
mod extending;
mod finding;
mod following;
mod marks;
mod next_record;
mod putting;
mod run_list;
mod run_reader;
mod run_reading;
mod run_slice;
mod run_writer;
mod token_column;
mod token_numbers;
mod typed;

pub use run_list::RunList;
pub use run_reader::RunReader;
pub use run_slice::RunSlice;
pub use run_writer::RunWriter;
