//! The record codec: each operation as bytes, in both directions.
//!
//! Files and frames stand on it: both hold the same records, so one grammar and one proof serve
//! them.
#![tactic(auto)]

mod anchor;
mod clock;
mod codec_error;
mod content;
mod deps;
mod fits;
mod format;
mod head;
mod id;
pub mod laws;
mod mark;
mod number;
mod peek;
mod record;
mod stream;
mod stream_error;
mod token;

pub use clock::{put_clock, take_clock};
pub use codec_error::CodecError;
pub use content::{Kind, put_origin, take_origin, take_scalar};
pub use deps::{put_deps, skip_deps};
pub use fits::every_op_has_a_spelling;
pub use format::Format;
pub use head::Head;
pub use id::{put_id, take_id, take_replica};
pub use number::{put_byte, put_bytes, put_u16, put_u32, take_u16, take_u32, take_u64};
pub use peek::{record_head, record_origin, record_token, skip_op};
pub use record::{put_op, take_op, whole_body};
pub use stream::{put_ops, stream_length, take_ops};
pub use stream_error::StreamError;
pub use token::{put_token, take_token};
