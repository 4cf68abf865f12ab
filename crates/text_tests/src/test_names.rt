//! The replicas, ids, comments and texts of these tests.
use op_ids::{OpId, ReplicaId};
use op_model::{CommentId, Text};
use std::alloc::{AllocError, Global};
use std::test::Fail;

fn bytes_ending(last: u8) -> [u8; 16] {
    let mut bytes = [0; 16];
    bytes[15] = last;
    bytes
}

/// The replica whose last byte is this number.
pub(crate) fn replica(last: u8) -> Result<ReplicaId, Fail> {
    Ok(ReplicaId::read(bytes_ending(last)).ok_or("nil")?)
}

/// The first replica's id with this counter.
pub(crate) fn id(counter: u64) -> Result<OpId, Fail> {
    Ok(OpId::try_new(counter, replica(1)?).ok_or("no counter")?)
}

/// The comment whose last byte is this number.
pub(crate) fn comment(last: u8) -> CommentId {
    CommentId::read(bytes_ending(last))
}

/// The characters of a string.
pub(crate) fn text_of(alloc: Global, text: &str) -> Result<Text, AllocError> {
    Ok(Text::from(text.chars().collect::<Vec<char>>(alloc)?))
}
