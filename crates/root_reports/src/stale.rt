//! What is in the root slot that isn't live.
ghost use Rattle.std.specs.Prelude.{◌≡◌, IfOk};
ghost use Rattle.root_reports.specs.Reports.{stale_of, stale_by};

use page_file::is_zero;
use root_slots::RootBody;
use std::alloc::{AllocError, Global};

/// What is in the body of the root slot that isn't live, where the next root goes.
#[derive(Clone, Copy, Debug, Drop, PartialEq, Eq)]
pub enum Stale {
    /// A root of a smaller version, as the one of the commit before.
    Older,
    /// A root after the live one: its commit was cut off before it counted.
    Unfinished,
    /// Nothing: no commit followed the making of the file.
    Empty,
    /// No root: a commit was cut off while it wrote one, or the bytes are damaged.
    Broken,
}

/// What a body is beside a live one of this version. An error is out of memory (1).
pub(crate) fn stale_of(alloc: Global, live: u64, body: &[u8]) -> Result<Stale, AllocError>
    ensures { IfOk result (λ stale. stale ≡ stale_of live body.now) }
{
    if is_zero(body) {
        return Ok(Stale::Empty);
    }
    match RootBody::read(alloc, body)? {
        Some(root) => Ok(stale_by(root.version(), live)),
        None => Ok(Stale::Broken),
    }
}

/// What a root of one version is beside a live one of another.
fn stale_by(version: u64, live: u64) -> Stale
    ensures { result ≡ stale_by version live }
{
    if version < live {
        Stale::Older
    } else {
        Stale::Unfinished
    }
}
