//! The lines of a listing: compact JSON with its keys in the order of their bytes.
ghost use Rattle.file_listing.specs.Listing.{document_line, Puts};

use crate::putting::{put, put_member};
use list_counts::DocumentCounts;
use std::alloc::AllocError;

/// Puts the line of a document, with how many characters it shows and how many operations it has.
/// An error is out of memory (1).
pub fn put_document(counts: &DocumentCounts, out: &mut Vec<u8>) -> Result<(), AllocError>
    ensures { Puts result out.old out.new (document_line counts.now) }
{
    put_member(b"{\"chars\":", counts.chars, out)?;
    put_member(b",\"doc\":", counts.doc as u64, out)?;
    put_member(b",\"ok\":true,\"ops\":", counts.ops, out)?;
    put(b"}\n", out)
}
