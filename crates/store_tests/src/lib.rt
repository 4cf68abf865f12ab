//! Tests of what goes over a link or into a file: names, clocks, records, lists, frames, pages,
//! slots, and the commits of a store.
#![tactic(auto)]

#[cfg(test)]
mod body_tests;
#[cfg(test)]
mod clock_tests;
#[cfg(test)]
mod commit_tests;
#[cfg(test)]
mod frame_tests;
#[cfg(test)]
mod link_tests;
#[cfg(test)]
mod list_tests;
#[cfg(test)]
mod load_tests;
#[cfg(test)]
mod moving_tests;
#[cfg(test)]
mod mute_tests;
#[cfg(test)]
mod name_tests;
#[cfg(test)]
mod number_tests;
#[cfg(test)]
mod opening_tests;
#[cfg(test)]
mod page_tests;
#[cfg(test)]
mod piece_tests;
#[cfg(test)]
mod read_tests;
#[cfg(test)]
mod refusal_tests;
#[cfg(test)]
mod roots_tests;
#[cfg(test)]
mod run_record_tests;
#[cfg(test)]
mod run_tests;
#[cfg(test)]
mod spelling_tests;
#[cfg(test)]
mod stream_tests;
#[cfg(test)]
mod test_bench;
#[cfg(test)]
mod test_bytes;
#[cfg(test)]
mod test_files;
#[cfg(test)]
mod test_inserts;
#[cfg(test)]
mod test_links;
#[cfg(test)]
mod test_names;
#[cfg(test)]
mod test_ops;
#[cfg(test)]
mod test_rows;
#[cfg(test)]
mod test_store;
