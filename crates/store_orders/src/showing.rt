//! What is shown of a file. Its replica alone is opened, without the part of a hub that commits,
//! which has a copy of the records. The file is let go of before anything is printed: a reader that
//! takes its time holds up no session.
ghost use Rattle.std.specs.Prelude.{◌≡◌, IfOk, IfErr, IsErrAnd};
ghost use Rattle.op_model.specs.Spans.{spans as spans_of};
ghost use Rattle.file_listing.specs.Listing.{said_listing};
ghost use Rattle.recovery.specs.Faults.{number_of as number_of_open};
ghost use Rattle.span_export.specs.Exported.{exported};
ghost use Rattle.store_orders.specs.Ends.{number_of};
ghost use Rattle.store_orders.specs.Past.{RefusesPast, ShowsPast, TellsPast};
ghost use Rattle.store_orders.specs.Shown.{said_document, Shows};
ghost use Rattle.store_orders.specs.declared.fault.Fault.TheVariants.{Memory};

use crate::fault::Fault;
use crate::listing::listing;
use crate::printing::print;
use command_syntax::{DumpOrder, ExportOrder, ListOrder};
use disk_trait::{Disk, FileDisk};
use recovery::{OpenFault, Opened};
use replica_core::Replica;
use session_lines::{Answer, SpanList, say};
use span_export::{Form, export};
use std::alloc::Global;
use std::fs::File;
use std::io::Write;
use std::rt::Files;

/// A disk, and the lines that show a document of it, or why there are none.
#[derive(Drop)]
pub struct Shown<D: Disk> {
    pub disk: D,
    pub lines: Result<Vec<u8>, Fault>,
}

/// Shows the text and the spans of a document, a line each: of a disk that tells its content those
/// of its image, else the file's first fault, the device's, or `Memory` (1). Nothing is written.
pub fn show<D: Disk>(alloc: Global, disk: D, doc: u32) -> Shown<D>
    ensures { Shows D.DiskFacts (λ list. said_document list doc) disk result.lines result.disk }
{
    match recovery::open(alloc, disk) {
        Ok(Opened { replica, store }) => Shown {
            disk: store.into_disk(),
            lines: document_lines(alloc, &replica, doc),
        },
        Err(fault) => unopened(fault),
    }
}

/// Shows a line for each document, and one for the room in the file, as `show` does.
pub fn show_all<D: Disk>(alloc: Global, disk: D) -> Shown<D>
    ensures { Shows D.DiskFacts said_listing disk result.lines result.disk }
{
    match recovery::open(alloc, disk) {
        Ok(Opened { replica, store }) => Shown {
            disk: store.into_disk(),
            lines: listing(alloc, &replica),
        },
        Err(fault) => unopened(fault),
    }
}

/// Shows a document in a form for other programs, as `show` does.
pub fn show_in<D: Disk>(alloc: Global, disk: D, doc: u32, form: Form) -> Shown<D>
    ensures { Shows D.DiskFacts (λ list. exported form (spans_of list doc)) disk
        result.lines result.disk }
{
    match recovery::open(alloc, disk) {
        Ok(Opened { replica, store }) => Shown {
            disk: store.into_disk(),
            lines: document_in(alloc, &replica, doc, form),
        },
        Err(fault) => unopened(fault),
    }
}

/// Shows a document in a form for other programs as it was when it had `rev` operations, the first
/// ones in the file's list, as `show` does; `Field` (4) if it has fewer.
pub fn show_past<D: Disk>(alloc: Global, disk: D, doc: u32, rev: u32, form: Form) -> Shown<D>
    ensures { ShowsPast D.DiskFacts doc rev form disk result.lines result.disk }
{
    match recovery::open(alloc, disk) {
        Ok(Opened { replica, store }) => Shown {
            disk: store.into_disk(),
            lines: document_past(alloc, &replica, doc, rev, form),
        },
        Err(fault) => unopened(fault),
    }
}

/// Nothing is shown of a file that can't be opened.
pub(crate) fn unopened<D: Disk>(fault: OpenFault<D>) -> Shown<D>
    ensures lines { IsErrAnd result.lines (λ told. number_of told ≡ number_of_open fault.cause) }
    ensures disk { result.disk ≡ fault.disk }
{
    Shown {
        disk: fault.disk,
        lines: Err(Fault::from(fault.cause)),
    }
}

/// The text of a document, and the text cut where its marks change, a line each. `Memory` (1) where
/// a growth was refused.
fn document_lines(alloc: Global, replica: &Replica, doc: u32) -> Result<Vec<u8>, Fault>
    ensures ok { IfOk result (λ lines. lines.items ≡ said_document replica.now.list doc) }
    ensures err { IfErr result (λ fault. fault ≡ Memory) }
{
    let rev = replica.rev(doc) as u64;
    let text = Answer::Text {
        rev,
        text: replica.text(doc)?,
    };
    let spans = Answer::Spans {
        rev,
        spans: SpanList::from(replica.spans(doc)?),
    };
    let mut lines = Vec::new(alloc);
    say(alloc, &text, &mut lines)?;
    say(alloc, &spans, &mut lines)?;
    Ok(lines)
}

/// A document in a form for other programs. `Memory` (1) where a growth was refused.
fn document_in(alloc: Global, replica: &Replica, doc: u32, form: Form) -> Result<Vec<u8>, Fault>
    ensures ok { IfOk result (λ bytes.
        bytes.items ≡ exported form (spans_of replica.now.list doc)) }
    ensures err { IfErr result (λ fault. fault ≡ Memory) }
{
    let spans = replica.spans(doc)?;
    let bytes = export(alloc, form, &spans)?;
    Ok(bytes)
}

/// A document as it was, in a form for other programs. `Memory` (1) where a growth was refused, and
/// `Field` (4) if it has fewer operations.
fn document_past(
    alloc: Global,
    replica: &Replica,
    doc: u32,
    rev: u32,
    form: Form,
) -> Result<Vec<u8>, Fault>
    ensures ok { IfOk result (λ bytes. TellsPast replica.now.list doc rev form bytes.items) }
    ensures err { IfErr result (RefusesPast replica.now.list doc rev) }
{
    let Some(spans) = replica.spans_at(doc, rev as usize)? else {
        return Err(Fault::Field);
    };
    let bytes = export(alloc, form, &spans)?;
    Ok(bytes)
}

/// Prints the text and the spans of a document in a file.
pub fn dump<R: Files<File = File> + AllocGlobal, W: Write>(
    rt: &R,
    order: DumpOrder<'_>,
    output: &mut W,
) -> Result<(), Fault> {
    let Shown { disk, lines } = show(rt.alloc(), opened(rt, order.file)?, order.doc);
    drop(disk);
    print(&lines?, output)
}

/// Prints a line for each document in a file, and one for the room in it.
pub fn list<R: Files<File = File> + AllocGlobal, W: Write>(
    rt: &R,
    order: ListOrder<'_>,
    output: &mut W,
) -> Result<(), Fault> {
    let Shown { disk, lines } = show_all(rt.alloc(), opened(rt, order.file)?);
    drop(disk);
    print(&lines?, output)
}

/// Prints a document in a file in a form for other programs.
pub fn export_from<R: Files<File = File> + AllocGlobal, W: Write>(
    rt: &R,
    order: ExportOrder<'_>,
    output: &mut W,
) -> Result<(), Fault> {
    let disk = opened(rt, order.file)?;
    let Shown { disk, lines } = match order.at_rev {
        Some(rev) => show_past(rt.alloc(), disk, order.doc, rev, order.form),
        None => show_in(rt.alloc(), disk, order.doc, order.form),
    };
    drop(disk);
    print(&lines?, output)
}

/// A file that is only read. `OpenFailed` (54) where it can't be opened, or another one has it.
pub(crate) fn opened<R: Files<File = File>>(rt: &R, path: &str) -> Result<FileDisk, Fault> {
    match FileDisk::open_to_read(rt, path) {
        Ok(disk) => Ok(disk),
        Err(_) => Err(Fault::OpenFailed),
    }
}
