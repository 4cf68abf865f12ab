//! Edits as they stand in rows, and what tells which row is wrong.
use crate::test_names::{comment, text_of};
use op_model::{Change, CommentIds, EditText, Mark, Marks, Span, Url};
use std::alloc::{AllocError, Global};
use std::io::Eprint;
use std::num::NonZeroU32;
use std::test::Fail;

/// Which of two peers.
#[derive(Clone, Copy)]
pub(crate) enum Who {
    A,
    B,
}

/// An edit of a document.
#[derive(Clone, Copy)]
pub(crate) enum Act<'a> {
    /// Puts a text at a place.
    Insert(u32, &'a str),
    /// Puts that many letters at a place.
    InsertMany(u32, usize),
    /// Removes from a place on that many characters.
    Delete(u32, u32),
    /// Puts a mark from a place to another one.
    Mark(u32, u32, Look<'a>),
    /// Takes a mark away from a place to another one.
    Unmark(u32, u32, Look<'a>),
}

/// The marks of a span: none, or just one.
#[derive(Clone, Copy)]
pub(crate) enum Look<'a> {
    Plain,
    Strong,
    Em,
    Linked(&'a str),
    Commented(u8),
}

/// A span's text, and how it looks.
#[derive(Clone, Copy)]
pub(crate) struct Shown<'a>(pub(crate) &'a str, pub(crate) Look<'a>);

/// Tells which row is wrong, counted from 0, if it doesn't hold or ends in an error.
pub(crate) fn judged(rt: &impl Eprint, row: usize, holds: Result<bool, Fail>) -> Result<(), Fail> {
    match holds {
        Ok(true) => Ok(()),
        Ok(false) => Err(Fail::new(format_args!("row {row} doesn't hold"))),
        Err(fail) => {
            let _ = eprintln!(rt; "row {row} ends in an error");
            Err(fail)
        }
    }
}

/// What a case came to; one that fails is named.
pub(crate) fn named(rt: &impl Eprint, name: &str, outcome: Result<(), Fail>) -> Result<(), Fail> {
    if outcome.is_err() {
        let _ = eprintln!(rt; "{name}");
    }
    outcome
}

/// The text of an edit.
fn edit_text(alloc: Global, text: &str) -> Result<EditText, Fail> {
    Ok(EditText::new(text.chars().collect(alloc)?).ok_or("no text")?)
}

/// That many letters.
fn many(alloc: Global, size: usize) -> Result<EditText, Fail> {
    Ok(EditText::new(Vec::from_elem(alloc, 'x', size)?).ok_or("no text")?)
}

/// The mark of a look.
fn mark(alloc: Global, look: Look<'_>) -> Result<Mark, Fail> {
    match look {
        Look::Plain => Err(Fail::from("no mark")),
        Look::Strong => Ok(Mark::Strong),
        Look::Em => Ok(Mark::Em),
        Look::Linked(url) => {
            let url = Url::new(String::from_str(alloc, url)?).ok_or("no link")?;
            Ok(Mark::Link(url))
        }
        Look::Commented(last) => Ok(Mark::Comment(comment(last))),
    }
}

/// What an edit asks to be changed.
pub(crate) fn change(alloc: Global, act: Act<'_>) -> Result<Change, Fail> {
    match act {
        Act::Insert(at, text) => {
            let text = edit_text(alloc, text)?;
            Ok(Change::Insert { at, text })
        }
        Act::InsertMany(at, size) => {
            let text = many(alloc, size)?;
            Ok(Change::Insert { at, text })
        }
        Act::Delete(at, count) => {
            let count = NonZeroU32::new(count).ok_or("zero")?;
            Ok(Change::Delete { at, count })
        }
        Act::Mark(from, to, look) => {
            let mark = mark(alloc, look)?;
            Ok(Change::Mark { from, to, mark })
        }
        Act::Unmark(from, to, look) => {
            let key = mark(alloc, look)?.key();
            Ok(Change::Unmark { from, to, key })
        }
    }
}

/// The marks of a span that looks so.
pub(crate) fn span_marks(alloc: Global, look: Look<'_>) -> Result<Marks, AllocError> {
    let mut comments = Vec::new(alloc);
    if let Look::Commented(last) = look {
        comments.push(comment(last))?;
    }
    let link = match look {
        Look::Linked(url) => Url::new(String::from_str(alloc, url)?),
        _ => None,
    };
    Ok(Marks {
        strong: matches!(look, Look::Strong),
        em: matches!(look, Look::Em),
        link,
        comments: CommentIds::from(comments),
    })
}

/// The spans that are shown so.
pub(crate) fn spans_of(alloc: Global, shown: &[Shown<'_>]) -> Result<Vec<Span>, AllocError> {
    let mut spans = Vec::new(alloc);
    for Shown(text, look) in shown {
        let text = text_of(alloc, text)?;
        let marks = span_marks(alloc, *look)?;
        spans.push(Span { text, marks })?;
    }
    Ok(spans)
}
