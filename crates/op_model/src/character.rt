//! A character with its ids.
use op_ids::OpId;

/// A character of a document, with the ids of its insert and of the character behind which it was
/// inserted: no origin at the beginning.
#[derive(Clone, Copy, Debug, PartialEq, Eq, Hash)]
pub struct Character {
    pub id: OpId,
    pub origin: Option<OpId>,
    pub value: char,
}
