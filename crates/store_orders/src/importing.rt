//! A page of another program that is put in at the end of a document.

use crate::fault::Fault;
use crate::imported_text::read_characters;
use crate::performing::SESSION;
use crate::printing::print;
use command_syntax::ImportOrder;
use disk_trait::Disk;
use itoa::Buffer;
use locked_replica::Hub;
use markdown_reading::{Dropped, Page};
use op_model::{Action, Span};
use page_reading::{DocumentEnd, actions, read_page};
use placed_edits::PlacedAction;
use session_lines::{Answer, Command, say};
use session_threads::{Desk, HubDesk};
use std::alloc::{AllocError, Global};
use std::io::{Read, Write};

/// The disk of an import, and whether all was put in, or what ended it.
#[derive(Drop)]
pub struct Imported<D: Disk> {
    pub disk: D,
    pub end: Result<bool, Fault>,
}

/// What is told of an import, and whether all was put in.
#[derive(Debug, Drop)]
struct Told {
    line: Vec<u8>,
    is_whole: bool,
}

/// Reads a page, and puts it in at the end of a document by edits, each settled before the next.
/// Prints a line: how many characters were put in and what of the page was dropped, or the answer
/// of the first edit that was refused. What was settled before that stays. Nothing of the disk is
/// read before the page is.
pub fn import<D: Disk, R: Read + Drop, W: Write>(
    alloc: Global,
    order: ImportOrder<'_>,
    disk: D,
    input: R,
    output: &mut W,
) -> Imported<D> {
    match read(alloc, order, input) {
        Ok(page) => put_in(alloc, order.doc, &page, disk, output),
        Err(fault) => Imported {
            disk,
            end: Err(fault),
        },
    }
}

/// Reads the page of an order.
fn read<R: Read + Drop>(alloc: Global, order: ImportOrder<'_>, input: R) -> Result<Page, Fault> {
    let text = read_characters(alloc, input)?;
    let page = read_page(alloc, order.form, &text)?;
    Ok(page)
}

/// Puts a page in at the end of a document of a disk's file.
fn put_in<D: Disk, W: Write>(
    alloc: Global,
    doc: u32,
    page: &Page,
    disk: D,
    output: &mut W,
) -> Imported<D> {
    match Hub::open(alloc, disk) {
        Ok(hub) => {
            let mut desk = HubDesk::new(hub, SESSION);
            let told = serve_and_stop(alloc, &mut desk, doc, page);
            let hub = desk.into_hub();
            let printed = print_told(told, output);
            let end = end_of(hub.has_failed(), printed);
            Imported {
                disk: hub.into_disk(),
                end,
            }
        }
        Err(fault) => Imported {
            disk: fault.disk,
            end: Err(Fault::from(fault.cause)),
        },
    }
}

/// What ends an import: a device that failed is told whatever became of the output, since the store
/// has to be opened again.
fn end_of(has_failed: bool, printed: Result<bool, Fault>) -> Result<bool, Fault> {
    if has_failed {
        Err(Fault::Failed)
    } else {
        printed
    }
}

/// Prints what is told of an import, and gives whether all was put in.
fn print_told<W: Write>(told: Result<Told, Fault>, output: &mut W) -> Result<bool, Fault> {
    let told = told?;
    print(&told.line, output)?;
    Ok(told.is_whole)
}

/// Puts a page in at the end of a document, and then settles all that is left.
fn serve_and_stop<D: Disk>(
    alloc: Global,
    desk: &mut HubDesk<D>,
    doc: u32,
    page: &Page,
) -> Result<Told, Fault> {
    let told = serve(alloc, desk, doc, page);
    let _ = desk.serve(alloc, Command::Stop);
    told
}

/// Puts a page in at the end of a document.
fn serve<D: Disk>(
    alloc: Global,
    desk: &mut HubDesk<D>,
    doc: u32,
    page: &Page,
) -> Result<Told, Fault> {
    let end = match end_of_document(alloc, desk, doc) {
        Ok(end) => end,
        Err(answer) => return refused(alloc, &answer),
    };
    let edits = actions(alloc, end, &page.spans)?;
    match make_all(alloc, desk, edits) {
        Ok(()) => Ok(done(alloc, count_of(&page.spans, end), page.dropped)?),
        Err(answer) => refused(alloc, &answer),
    }
}

/// The end of a document, or the answer that refuses its spans.
fn end_of_document<K: Desk>(alloc: Global, desk: &mut K, doc: u32) -> Result<DocumentEnd, Answer> {
    match desk.serve(alloc, Command::Spans { doc, at_rev: None }) {
        Answer::Spans { spans, .. } => Ok(DocumentEnd::of(doc, spans.as_slice())),
        refused => Err(refused),
    }
}

/// Makes edits, each settled before the next, up to the first that is refused, of which it gives
/// the answer.
fn make_all<D: Disk>(
    alloc: Global,
    desk: &mut HubDesk<D>,
    edits: Vec<Action>,
) -> Result<(), Answer> {
    for edit in edits {
        let command = Command::Edit(PlacedAction::by_numbers(alloc, edit));
        match desk.serve(alloc, command) {
            Answer::Edited { .. } => {}
            refused => return Err(refused),
        }
    }
    Ok(())
}

/// How many characters are put in for these spans.
fn count_of(spans: &[Span], end: DocumentEnd) -> u64 {
    let mut count: u64 = 0;
    for span in spans {
        count = count.saturating_add(span.text.as_slice().len() as u64);
    }
    if end.length > 0 && !spans.is_empty() {
        count = count.saturating_add(1);
    }
    count
}

/// What is told where an edit is refused: its answer.
fn refused(alloc: Global, answer: &Answer) -> Result<Told, Fault> {
    let mut line = Vec::new(alloc);
    say(alloc, answer, &mut line)?;
    Ok(Told {
        line,
        is_whole: false,
    })
}

/// What is told where all was put in.
fn done(alloc: Global, count: u64, dropped: Dropped) -> Result<Told, AllocError> {
    let mut line = Vec::new(alloc);
    line.extend_from_slice(b"{\"characters\":")?;
    put_number(count, &mut line)?;
    line.extend_from_slice(b",\"dropped\":{")?;
    put_dropped(dropped, &mut line)?;
    line.extend_from_slice(b"},\"ok\":true}\n")?;
    Ok(Told {
        line,
        is_whole: true,
    })
}

/// Puts what was dropped: the name of each, and how often.
fn put_dropped(dropped: Dropped, line: &mut Vec<u8>) -> Result<(), AllocError> {
    let mut is_first = true;
    for (name, count) in dropped.named() {
        if count > 0 {
            line.extend_from_slice(if is_first { b"\"" } else { b",\"" })?;
            line.extend_from_slice(name.as_bytes())?;
            line.extend_from_slice(b"\":")?;
            put_number(count, line)?;
            is_first = false;
        }
    }
    Ok(())
}

/// Puts a number in decimal digits.
fn put_number(number: u64, line: &mut Vec<u8>) -> Result<(), AllocError> {
    let mut buffer = Buffer::new();
    line.extend_from_slice(buffer.format(number).as_bytes())
}
