//! One character in its place.
use op_ids::OpId;

/// A character in its place: its id, its value, and whether it was removed and is a tombstone.
#[derive(Clone, Copy, Debug, PartialEq, Eq)]
pub struct Cell {
    pub id: OpId,
    pub value: char,
    pub is_removed: bool,
}
