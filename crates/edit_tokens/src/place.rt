//! Where an edit stands in a list.

/// Where an edit stands in a list, as its ticket says. It is plain data that anybody may write out.
#[derive(Clone, Copy, Debug, PartialEq, Eq)]
pub struct Place {
    /// The length of the list right after the edit.
    pub end: u32,
    /// How many operations the edit's document had then.
    pub rev: u32,
}
