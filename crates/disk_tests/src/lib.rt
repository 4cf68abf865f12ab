//! Tests of disks: in memory, failing, and over real files.
#![tactic(auto)]

#[cfg(test)]
mod file_tests;
#[cfg(test)]
mod limit_tests;
#[cfg(test)]
mod memory_tests;
#[cfg(test)]
mod table_tests;
#[cfg(test)]
mod test_disks;
#[cfg(test)]
mod test_limits;
