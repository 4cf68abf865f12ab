//! What is counted of a list, and of each of its documents.
ghost use Rattle.std.specs.Prelude.{◌≡◌, IfOk};
ghost use Rattle.op_model.specs.Causality.{clock_of, IsCausallyClosed};
ghost use Rattle.doc_core.specs.Standing.{StandsFor};
ghost use Rattle.list_counts.specs.Documents.{all_counted, counted, held_room, writers};
ghost use Rattle.replica_core.specs.Docs.{doc_number, AreDocs};

use crate::docs::count;
use crate::replica::Replica;
use doc_core::Doc;
use list_counts::{DocumentCounts, FileRoom, Room};
use op_ids::{Clock, ReplicaId};
use run_list::RunSlice;
use std::alloc::{AllocError, Global};

impl Replica {
    /// How much there is of what there is a limit to. Constant.
    pub fn room(&self) -> Room
        ensures { result ≡ held_room self.now }
    {
        Room {
            file: FileRoom {
                bytes: self.records_length(),
                documents: self.log.docs.len() as u64,
                operations: self.log.list.len() as u64,
                replicas: self.clock.len() as u64,
            },
            steps: self.steps.count() as u64,
        }
    }

    /// What is counted of each document that has operations, in rising order of their numbers. An
    /// error is out of memory (1). At most 256 steps for each document, and none for its characters
    /// and operations.
    pub fn documents(&self) -> Result<Vec<DocumentCounts>, AllocError>
        ensures { IfOk result (λ counts. counts.items ≡ all_counted self.now.list) }
    {
        let list = self.log.list.as_slice();
        let alloc = self.log.list.allocator();
        doc_counts(alloc, &self.log.docs, &self.clock, &list)
    }
}

/// What is counted of each document of a list, which is there for the proof, in rising order. An
/// error is out of memory (1). At most 256 steps for each document.
pub(crate) fn doc_counts(
    alloc: Global,
    docs: &[Doc],
    clock: &Clock,
    list: &RunSlice<'_>,
) -> Result<Vec<DocumentCounts>, AllocError>
    requires docs { AreDocs docs.now list.now }
    requires clock { clock.now ≡ clock_of list.now }
    requires closed { IsCausallyClosed list.now }
    ensures { IfOk result (λ counts. counts.items ≡ all_counted list.now) }
{
    let mut counts = Vec::new(alloc);
    for doc in docs {
        counts.push(counts_of(alloc, doc, clock, list)?)?;
    }
    Ok(counts)
}

/// What is counted of a document. An error is out of memory (1). At most 256 steps.
fn counts_of(
    alloc: Global,
    doc: &Doc,
    clock: &Clock,
    list: &RunSlice<'_>,
) -> Result<DocumentCounts, AllocError>
    requires stands { StandsFor doc.now list.now }
    requires clock { clock.now ≡ clock_of list.now }
    requires closed { IsCausallyClosed list.now }
    ensures { IfOk result (λ counts. counts ≡ counted list.now (doc_number doc.now)) }
{
    Ok(DocumentCounts {
        doc: doc.number(),
        chars: doc.shown() as u64,
        ops: count(doc, list) as u64,
        writers: writers_of(alloc, doc, clock, list)?,
    })
}

/// Who wrote in a document, in rising order. An error is out of memory (1). At most 256 steps.
fn writers_of(
    alloc: Global,
    doc: &Doc,
    clock: &Clock,
    list: &RunSlice<'_>,
) -> Result<Vec<ReplicaId>, AllocError>
    requires stands { StandsFor doc.now list.now }
    requires clock { clock.now ≡ clock_of list.now }
    requires closed { IsCausallyClosed list.now }
    ensures { IfOk result (λ found. found.items ≡ writers list.now (doc_number doc.now)) }
{
    let _ = list;
    let mut found = Vec::new(alloc);
    for entry in clock.entries() {
        if doc.was_written_by(entry.0) {
            found.push(entry.0)?;
        }
    }
    Ok(found)
}
