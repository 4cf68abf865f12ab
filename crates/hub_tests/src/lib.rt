//! Tests of replicas, alone and among peers, and of hubs that are held alone, the sessions over
//! them and links between two.
#![tactic(auto)]

#[cfg(test)]
mod asks;
#[cfg(test)]
mod change_tests;
#[cfg(test)]
mod edit_tests;
#[cfg(test)]
mod failing_tests;
#[cfg(test)]
mod meeting_edits;
#[cfg(test)]
mod meeting_peer;
#[cfg(test)]
mod meeting_run;
#[cfg(test)]
mod meeting_tests;
#[cfg(test)]
mod merge_tests;
#[cfg(test)]
mod pending_tests;
#[cfg(test)]
mod play;
#[cfg(test)]
mod play_alone;
#[cfg(test)]
mod play_run;
#[cfg(test)]
mod replica_asks;
#[cfg(test)]
mod replica_merge_tests;
#[cfg(test)]
mod run_tests;
#[cfg(test)]
mod session_tests;
#[cfg(test)]
mod test_asks;
#[cfg(test)]
mod test_changes;
#[cfg(test)]
mod test_edits;
#[cfg(test)]
mod test_exchange;
#[cfg(test)]
mod test_hubs;
#[cfg(test)]
mod test_merges;
#[cfg(test)]
mod test_peers;
#[cfg(test)]
mod token_session_tests;
#[cfg(test)]
mod token_tests;
#[cfg(test)]
mod world_run;
#[cfg(test)]
mod world_tests;
