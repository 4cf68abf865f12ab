//! What is told of all documents of a replica, and of the room in its file.
ghost use Rattle.std.specs.Prelude.{◌≡◌, ◌++◌, flat_map, IfOk, IfErr, OnOk};
ghost use Rattle.file_listing.specs.Checked.{said_check};
ghost use Rattle.file_listing.specs.Listing.{document_line, said_listing};
ghost use Rattle.list_counts.specs.Documents.{room_of};
ghost use Rattle.store_orders.specs.declared.fault.Fault.TheVariants.{Memory};

use crate::fault::Fault;
use file_listing::{put_check, put_document};
use list_counts::DocumentCounts;
use replica_core::Replica;
use root_reports::SlotReport;
use session_lines::put_file_room;
use std::alloc::{AllocError, Global};

/// A line for each document that has operations, in rising order, and one for the room in the file.
/// `Memory` (1) where a growth was refused. Costs what `Replica::documents` does.
pub(crate) fn listing(alloc: Global, replica: &Replica) -> Result<Vec<u8>, Fault>
    ensures ok { IfOk result (λ lines. lines.items ≡ said_listing replica.now.list) }
    ensures err { IfErr result (λ fault. fault ≡ Memory) }
{
    let documents = replica.documents()?;
    let mut lines = Vec::new(alloc);
    put_documents(&documents, &mut lines)?;
    put_file_room(&replica.room().file, &mut lines)?;
    Ok(lines)
}

/// The line of a file that was checked, of which the root slots say this. `Memory` (1) where a
/// growth was refused. Constant.
pub(crate) fn check_line(
    alloc: Global,
    replica: &Replica,
    report: &SlotReport,
) -> Result<Vec<u8>, Fault>
    ensures ok { IfOk result (λ line.
        line.items ≡ said_check (room_of replica.now.list) report.now) }
    ensures err { IfErr result (λ fault. fault ≡ Memory) }
{
    let mut line = Vec::new(alloc);
    put_check(replica.room().file, report, &mut line)?;
    Ok(line)
}

/// Puts a line for each of these documents. An error is out of memory (1).
fn put_documents(documents: &[DocumentCounts], lines: &mut Vec<u8>) -> Result<(), AllocError>
    ensures { OnOk result (lines.new.items
        ≡ lines.old.items ++ flat_map document_line documents.now) }
{
    for counts in documents {
        put_document(counts, lines)?;
    }
    Ok(())
}
