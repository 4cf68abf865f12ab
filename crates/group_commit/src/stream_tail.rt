//! A stream of which memory holds the end alone.
ghost use Rattle.std.specs.Prelude.{◌≡◌, ◌<◌, [], ◌++◌, length, drop, IfOk};
ghost use Rattle.group_commit.specs.Saved.{tail_of};

use fixed_numbers::sizes::PAGE_SIZE;
use ghost_lists::Written;
use std::alloc::{AllocError, Global};
use std::marker::Model;

/// The bytes of a stream, as contracts see it. Memory holds its tail alone, which stands behind its
/// full pages: fewer than 4,096 bytes.
#[derive(Drop)]
pub(crate) struct StreamTail {
    written: Written<u8>,
    tail: Vec<u8>,
}

impl Model for StreamTail {
    ghost use Rattle.std.specs.Prelude.{ℕ, List, ◌≡◌};
    ghost use Rattle.group_commit.specs.Saved.{tail_of};

    ghost Value = { List ℕ };

    ghost view = { λ s. s.written.items };

    ghost invariant = { λ s. s.tail.items ≡ tail_of s.written.items };
}

impl StreamTail {
    /// A stream without bytes.
    pub(crate) fn new(alloc: Global) -> StreamTail
        ensures { result ≡ [] }
    {
        StreamTail {
            written: Written::new(),
            tail: Vec::new(alloc),
        }
    }

    /// The stream with more bytes at its end. Two growths at most, of its new tail; an error is
    /// out of memory (1).
    pub(crate) fn and(&self, more: &[u8]) -> Result<StreamTail, AllocError>
        ensures { IfOk result (λ all. all ≡ self.now ++ more.now) }
    {
        let tail = next_tail(*self.tail.allocator(), &self.tail, more)?;
        Ok(StreamTail {
            written: self.written.and(more),
            tail,
        })
    }

    /// The bytes behind its full pages.
    pub(crate) fn tail(&self) -> &[u8]
        ensures { result.now ≡ tail_of self.now }
    {
        &self.tail
    }
}

/// The bytes behind the full pages of these two, one behind the other. An error is out of memory
/// (1).
fn next_tail(alloc: Global, tail: &[u8], more: &[u8]) -> Result<Vec<u8>, AllocError>
    requires { length tail.now < PAGE_SIZE }
    ensures { IfOk result (λ next. next.items ≡ tail_of (tail.now ++ more.now)) }
{
    let full_bytes = PAGE_SIZE * ((tail.len() + more.len()) / PAGE_SIZE);
    let mut next = Vec::new(alloc);
    next.extend_from_slice(behind(tail, full_bytes))?;
    next.extend_from_slice(behind(more, full_bytes.saturating_sub(tail.len())))?;
    Ok(next)
}

/// The bytes from this index on.
pub(crate) fn behind(bytes: &[u8], at: usize) -> &[u8]
    ensures { result.now ≡ drop at bytes.now }
{
    if at < bytes.len() {
        &bytes[at..]
    } else {
        &bytes[bytes.len()..]
    }
}
