//! Tests of what threads share: books, hubs, links and journals; and of daemons over disks in
//! memory, which are met over sockets.
#![tactic(auto)]

#[cfg(test)]
mod asking_checkpoint;
#[cfg(test)]
mod book_tests;
#[cfg(test)]
mod connected_tests;
#[cfg(test)]
mod daemon_tests;
#[cfg(test)]
mod failure_tests;
#[cfg(test)]
mod journal_tests;
#[cfg(test)]
mod link_tests;
#[cfg(test)]
mod several_tests;
#[cfg(test)]
mod shared_tests;
#[cfg(test)]
mod test_daemons;
#[cfg(test)]
mod test_ends;
#[cfg(test)]
mod test_hubs;
#[cfg(test)]
mod told_tests;
#[cfg(test)]
mod waiting_disk;
#[cfg(test)]
mod watch_tests;
