//! The versions of a document.
ghost use Rattle.std.specs.Prelude.{◌≡◌, ◌+◌, ◌<◌, ℕ, List, ◌∷◌, ◌++◌, Some, IfOk};
ghost use Rattle.list_counts.specs.Versions.{versions};
ghost use Rattle.replica_core.specs.Versions.{IsAtMost, versions_from};

use crate::replica::Replica;
use list_counts::Version;
use op_ids::ReplicaId;
use run_list::RunSlice;
use std::alloc::{AllocError, Global};

impl Replica {
    /// The versions of a document: stretches of its operations, one after another in this replica's
    /// list, each of one replica and of at most `every` operations. An error is out of memory (1).
    /// A look at the head of each operation; 40 bytes for each version.
    pub fn versions(&self, doc: u32, every: u32) -> Result<Vec<Version>, AllocError>
        ensures { IfOk result (λ found. found.items ≡ versions self.now.list doc every) }
    {
        let list = self.log.list.as_slice();
        versions_of(self.log.list.allocator(), &list, doc, every as u64)
    }
}

/// The versions of a document in a list. An error is out of memory (1).
fn versions_of(
    alloc: Global,
    list: &RunSlice<'_>,
    doc: u32,
    every: u64,
) -> Result<Vec<Version>, AllocError>
    ensures { IfOk result (λ found. found.items ≡ versions list.now doc every) }
{
    let mut ended = Vec::new(alloc);
    let mut last: Option<Version> = None;
    for at in 0..list.len() {
        let head = list.head(at);
        if head.doc == doc {
            last = Some(with_next(&mut ended, last, head.id.replica(), every)?);
        }
    }
    if let Some(version) = last {
        ended.push(version)?;
    }
    Ok(ended)
}

/// The version that has the next operation, of this replica: the last one so far, which grows, or a
/// new one, before which that one ended. An error is out of memory (1).
fn with_next(
    ended: &mut Vec<Version>,
    last: Option<Version>,
    replica: ReplicaId,
    every: u64,
) -> Result<Version, AllocError>
    requires { IsAtMost 18446744073709551614 last }
    ensures versions { IfOk result (λ next. (more : List ℕ)
        → ended.old.items ++ versions_from every last (replica ∷ more)
        ≡ ended.new.items ++ versions_from every (Some next) more) }
    ensures small { IfOk result
        (λ next. (n : ℕ) → IsAtMost n last → IsAtMost (n + 1) (Some next)) }
{
    let Some(version) = last else {
        return Ok(Version::begun(0, replica));
    };
    if version.goes_on(replica, every) {
        return Ok(version.longer());
    }
    ended.push(version)?;
    Ok(Version::begun(version.rev, replica))
}
