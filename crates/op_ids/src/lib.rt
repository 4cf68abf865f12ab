//! Names that are unique among all peers: replicas, operations, tokens of edits, and clocks that
//! count operations.
//!
//! Everything above names operations by them; whoever can make no wrong one needs no check later.
#![tactic(auto)]

mod clock;
mod clock_error;
pub mod laws;
mod op_id;
mod replica_id;
mod several;
mod token;
mod words;

pub use clock::Clock;
pub use clock_error::ClockError;
pub use op_id::OpId;
pub use replica_id::ReplicaId;
pub use token::Token;
