//! What is counted of documents, as JSON.
ghost use Rattle.std.specs.Prelude.{false};
ghost use Rattle.session_lines.specs.Words.{said_list, said_replica};
ghost use Rattle.session_lines.specs.Counting.{said_document};
ghost use Rattle.session_lines.specs.Putting.{Puts};

use crate::numbered::{put_numbered, put_part};
use crate::peers::put_replica;
use crate::quoted::{comma, put};
use list_counts::DocumentCounts;
use op_ids::ReplicaId;
use std::alloc::AllocError;

/// Puts replicas, and the closing bracket.
fn put_writers(writers: &[ReplicaId], out: &mut Vec<u8>) -> Result<(), AllocError>
    ensures { Puts result out.old out.new (said_list said_replica false writers.now) }
{
    let mut later = false;
    for writer in writers {
        put(comma(later), out)?;
        put_replica(*writer, out)?;
        later = true;
    }
    put(b"]", out)
}

/// Puts what is counted of a document.
fn put_document(counts: &DocumentCounts, out: &mut Vec<u8>) -> Result<(), AllocError>
    ensures { Puts result out.old out.new (said_document counts.now) }
{
    put_part(
        b"{\"chars\":",
        counts.chars,
        b",\"doc\":",
        counts.doc as u64,
        out,
    )?;
    put_numbered(b",\"ops\":", counts.ops, b",\"writers\":[", out)?;
    put_writers(&counts.writers, out)?;
    put(b"}", out)
}

/// Puts what is counted of documents, and the closing bracket.
pub(crate) fn put_documents(
    documents: &[DocumentCounts],
    out: &mut Vec<u8>,
) -> Result<(), AllocError>
    ensures { Puts result out.old out.new (said_list said_document false documents.now) }
{
    let mut later = false;
    for counts in documents {
        put(comma(later), out)?;
        put_document(counts, out)?;
        later = true;
    }
    put(b"]", out)
}
