//! Tests of the lines of a session: what they are read from and into, and how answers are said.
#![tactic(auto)]

#[cfg(test)]
mod answer_rows;
#[cfg(test)]
mod asking_tests;
#[cfg(test)]
mod edits_tests;
#[cfg(test)]
mod first_line_tests;
#[cfg(test)]
mod first_watch_tests;
#[cfg(test)]
mod guests;
#[cfg(test)]
mod place_tests;
#[cfg(test)]
mod request_tests;
#[cfg(test)]
mod rows;
#[cfg(test)]
mod saying_tests;
#[cfg(test)]
mod several_tests;
#[cfg(test)]
mod stream_tests;
#[cfg(test)]
mod token_tests;
#[cfg(test)]
mod watch_tests;
#[cfg(test)]
mod web_from_tests;
#[cfg(test)]
mod web_guest_tests;
#[cfg(test)]
mod web_host_tests;
#[cfg(test)]
mod web_origin_tests;
#[cfg(test)]
mod web_tests;
#[cfg(test)]
mod web_writing_tests;
#[cfg(test)]
mod wires;
