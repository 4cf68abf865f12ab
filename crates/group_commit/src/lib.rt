//! Operations, committed together under two gates.
//!
//! It is the one place that decides what is written where and when, so a crash is reasoned about
//! once.
#![tactic(auto)]

mod begin;
mod device_calls;
mod error;
mod init;
mod init_fault;
mod load;
mod load_image;
mod load_ops;
mod load_pages;
mod load_parts;
mod load_stream;
mod open_fault;
mod opening_sync;
mod phase;
mod plan;
mod planned;
mod root;
mod state;
mod step;
mod store;
mod stream_tail;

pub use error::StoreError;
pub use init_fault::{InitError, InitFault};
pub use load::Loaded;
pub use open_fault::{OpenError, OpenFault};
pub use phase::Phase;
pub use store::Store;
