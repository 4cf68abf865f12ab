//! Tests of the program in memory: its command lines, and orders over disks.
#![tactic(auto)]

#[cfg(test)]
mod asking_word_tests;
#[cfg(test)]
mod check_tests;
#[cfg(test)]
mod device_tests;
#[cfg(test)]
mod due_words;
#[cfg(test)]
mod export_tests;
#[cfg(test)]
mod mark_tests;
#[cfg(test)]
mod markdown_tests;
#[cfg(test)]
mod page_tests;
#[cfg(test)]
mod perform_tests;
#[cfg(test)]
mod port_tests;
#[cfg(test)]
mod test_runs;
#[cfg(test)]
mod word_tests;
