//! What a session asks to be told of.
use crate::numbers::Numbers;

/// The documents of whose changes a session asks to be told.
#[derive(Debug, Drop)]
pub enum Watching {
    /// This one, by its number from 1 on: its lines don't name it.
    One(u32),
    /// Each of these 1 to 1,024, by their numbers from 1 on; one may stand there twice.
    These(Numbers),
    /// Each that has a settled operation, now or later.
    All,
}
