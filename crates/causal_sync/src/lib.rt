//! Peer links over bytes: the frames that a peer says are heard however their bytes are cut, and
//! what is said to it is spelled.
//!
//! It knows no threads and no sockets, so what a peer hears and says is proved for any cutting of
//! the bytes.
#![tactic(auto)]

mod heard;
mod hearing;
pub mod laws;
mod link;
mod link_error;
mod put_frame;
mod sent;
mod take_content;
mod take_frame;
mod waiting;

pub use heard::{Heard, Ops};
pub use link::Link;
pub use link_error::LinkError;
