//! The documents of a list, by their numbers.
ghost use Rattle.std.specs.Prelude.{◌≡◌, ℕ, List, [], ◌++◌, length, nat_le, OnOk, OnErr, IsErrOf};
ghost use Rattle.doc_core.specs.Standing.{StandsFor};
ghost use Rattle.replica_core.specs.Docs.{doc_number};
ghost use Rattle.char_sequence.specs.Content.{FitAfter};
ghost use Rattle.op_model.specs.Rising.{IsUp};
ghost use Rattle.op_model.specs.declared.op.Op.{Op};
ghost use Rattle.op_model.specs.Causality.{IsCausallyClosed};
ghost use Rattle.op_model.specs.Spans.{with_number};
ghost use Rattle.op_model.specs.Text.{rev};
ghost use Rattle.op_model.specs.Rising.{IsPlace};
ghost use Rattle.replica_core.specs.Docs.{numbers, AllStand, AreDocs};

use doc_core::{Doc, Made, SequenceError};
use fixed_numbers::limits::MAX_DOCUMENTS;
use run_list::RunSlice;
use std::alloc::{AllocError, Global};

/// Of the documents of a list the one with the number of this empty document, or else the empty
/// one. Takes no memory. A search by halves.
pub(crate) fn find<'a>(docs: &'a [Doc], empty: &'a Doc) -> &'a Doc
    requires rising { IsUp (numbers docs.now) }
    requires empty { StandsFor empty.now [] }
    ensures number { doc_number result.now ≡ doc_number empty.now }
    ensures stands { (ops : List Op) → AreDocs docs.now ops → StandsFor result.now ops }
{
    at(docs, place(docs, empty.number()), empty)
}

/// The index of the document of a number, or where it goes among these, whose numbers rise. A
/// search by halves.
pub(crate) fn place(docs: &[Doc], doc: u32) -> Result<usize, usize>
    requires { IsUp (numbers docs.now) }
    ensures { IsPlace (numbers docs.now) doc result }
{
    docs.binary_search_by_key(&doc, |it| it.number())
}

/// The document at this place, or else this empty one. Constant.
pub(crate) fn at<'a>(docs: &'a [Doc], place: Result<usize, usize>, empty: &'a Doc) -> &'a Doc
    requires place { IsPlace (numbers docs.now) (doc_number empty.now) place }
    requires empty { StandsFor empty.now [] }
    ensures number { doc_number result.now ≡ doc_number empty.now }
    ensures stands { (ops : List Op) → AreDocs docs.now ops → StandsFor result.now ops }
{
    match place {
        Ok(at) => &docs[at],
        Err(_) => empty,
    }
}

/// Whether there are at most 1,024 documents with the one of this place. Constant.
pub(crate) fn has_room(docs: &[Doc], place: Result<usize, usize>) -> bool
    ensures { (doc : ℕ) → IsPlace (numbers docs.now) doc place
        → result ≡ nat_le (length (with_number doc (numbers docs.now))) MAX_DOCUMENTS }
{
    match place {
        Ok(_) => docs.len() <= MAX_DOCUMENTS,
        Err(_) => docs.len() < MAX_DOCUMENTS,
    }
}

/// How many operations a document has. That its list is causally closed, and so short enough to be
/// counted, is for the proof. Constant.
pub(crate) fn count(doc: &Doc, list: &RunSlice<'_>) -> usize
    requires closed { IsCausallyClosed list.now }
    requires stands { StandsFor doc.now list.now }
    ensures { result ≡ rev list.now (doc_number doc.now) }
{
    let _ = list;
    doc.rev() as usize
}

/// Takes an edit of one document, which has this place, whole or not at all. `UnknownId` (60) only
/// where it can't come after the others, `Memory` (1) where a growth was refused. A step for each
/// greater document where it is new, and what the document itself takes.
pub(crate) fn apply(
    docs: &mut Vec<Doc>,
    alloc: Global,
    doc: u32,
    place: Result<usize, usize>,
    made: &Made,
) -> Result<(), SequenceError>
    requires { IsPlace (numbers docs.old.items) doc place }
    ensures numbers { OnOk result
        (numbers docs.new.items ≡ with_number doc (numbers docs.old.items)) }
    ensures stand { OnOk result ((list : List Op) → AreDocs docs.old.items list
        → FitAfter list doc made.now → AllStand docs.new.items (list ++ made.now)) }
    ensures known { IsErrOf result SequenceError.UnknownId → (list : List Op)
        → AreDocs docs.old.items list → FitAfter list doc made.now → ⊥ }
    ensures err { OnErr result (docs.new.items ≡ docs.old.items) }
{
    match place {
        Ok(at) => {
            let it = &mut docs[at];
            it.apply_edit(made)
        }
        Err(at) => {
            docs.reserve(1)?;
            let mut it = Doc::new(alloc, doc);
            match it.apply_edit(made) {
                Ok(()) => {}
                Err(e) => return Err(e),
            }
            match docs.insert(at, it) {
                Ok(()) => {}
                Err(_) => unreachable!(),
            }
            Ok(())
        }
    }
}

/// Puts a document that stands for a list and what was made after it in the place of the one with
/// its number, or among the others, where it is new. An error is out of memory (1), and
/// changes nothing. A step for each greater document where it is new.
pub(crate) fn put(
    docs: &mut Vec<Doc>,
    doc: u32,
    place: Result<usize, usize>,
    it: Doc,
) -> Result<(), AllocError>
    requires place { IsPlace (numbers docs.old.items) doc place }
    requires number { doc_number it ≡ doc }
    ensures numbers { OnOk result
        (numbers docs.new.items ≡ with_number doc (numbers docs.old.items)) }
    ensures stand { OnOk result ((list made : List Op) → AreDocs docs.old.items list
        → FitAfter list doc made → StandsFor it (list ++ made)
        → AllStand docs.new.items (list ++ made)) }
    ensures err { OnErr result (docs.new.items ≡ docs.old.items) }
{
    match place {
        Ok(at) => {
            docs[at] = it;
            Ok(())
        }
        Err(at) => {
            docs.reserve(1)?;
            match docs.insert(at, it) {
                Ok(()) => {}
                Err(_) => unreachable!(),
            }
            Ok(())
        }
    }
}
