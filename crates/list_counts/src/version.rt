//! A version of a document.
ghost use Rattle.std.specs.Prelude.{◌≡◌, ◌<◌};
ghost use Rattle.list_counts.specs.Versions.{begun, goes_on, longer};

use op_ids::ReplicaId;

/// A stretch of a document's operations, one after another in the list, all of one replica.
#[derive(Clone, Copy, Debug, Drop, PartialEq, Eq)]
pub struct Version {
    /// How many operations the document has after it.
    pub rev: u64,
    /// Whose operations they are.
    pub replica: ReplicaId,
    /// How many they are.
    pub ops: u64,
}

impl Version {
    /// A version of one operation of this replica, after so many of the document.
    pub fn begun(before: u64, replica: ReplicaId) -> Version
        requires { before < 18446744073709551615 }
        ensures { result ≡ begun before replica }
    {
        Version {
            rev: before + 1,
            replica,
            ops: 1,
        }
    }

    /// Whether an operation of this replica belongs to it too: it is of the same one, and has fewer
    /// than `every` operations.
    pub fn goes_on(&self, replica: ReplicaId, every: u64) -> bool
        ensures { result ≡ goes_on every self.now replica }
    {
        self.replica == replica && self.ops < every
    }

    /// The version with one operation more.
    pub fn longer(&self) -> Version
        requires rev { self.now.rev < 18446744073709551615 }
        requires ops { self.now.ops < 18446744073709551615 }
        ensures { result ≡ longer self.now }
    {
        Version {
            rev: self.rev + 1,
            replica: self.replica,
            ops: self.ops + 1,
        }
    }
}
