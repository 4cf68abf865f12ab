//! Operations of these tests, each told by words.
use crate::test_names::{id, place};
use crate::test_rows::cut_number;
use op_ids::{OpId, Token};
use op_model::{Anchor, Body, CommentId, End, Mark, MarkKey, Op, Start, Url};
use std::alloc::Global;
use std::test::Fail;

fn link(alloc: Global) -> Result<Mark, Fail> {
    Ok(Mark::Link(Url::new(String::from_str(alloc, "é")?).ok_or("url")?))
}

fn comment() -> Mark {
    Mark::Comment(CommentId::read([0; 16]))
}

/// An insert of a character behind the one with this counter, or at the start where that is 0.
fn insert(words: &str) -> Result<Body, Fail> {
    let (counter, value) = cut_number(words)?;
    let origin = OpId::try_new(counter, id(1)?.replica());
    let value = value.chars().next().ok_or("a character")?;
    Ok(Body::Insert { origin, value })
}

/// A mark over the text, from "a" on or up to it.
fn mark(alloc: Global, name: &str) -> Result<Body, Fail> {
    let a = id(1)?;
    let from_a = Start::From(Anchor::Before(a));
    let (mark, start, end) = match name {
        "strong" => (Mark::Strong, from_a, End::OfText),
        "link" => (link(alloc)?, Start::OfText, End::To(Anchor::After(a))),
        "link-to-the-end" => (link(alloc)?, from_a, End::OfText),
        "comment" => (comment(), Start::OfText, End::OfText),
        _ => Err("no such mark")?,
    };
    Ok(Body::AddMark { mark, start, end })
}

/// The same removed.
fn no_mark(name: &str) -> Result<Body, Fail> {
    let (key, end) = match name {
        "strong" => (MarkKey::Strong, End::OfText),
        "comment" => (
            MarkKey::Comment(CommentId::read([9; 16])),
            End::To(Anchor::After(id(1)?)),
        ),
        _ => Err("no such mark")?,
    };
    Ok(Body::RemoveMark {
        key,
        start: Start::OfText,
        end,
    })
}

/// What an operation does: `insert 0 a`, `remove`, `mark strong` or `unmark strong`.
fn body(alloc: Global, words: &str) -> Result<Body, Fail> {
    let (kind, others) = words.split_once(' ').unwrap_or((words, ""));
    match kind {
        "insert" => insert(others),
        "remove" => Ok(Body::Remove { target: id(1)? }),
        "mark" => mark(alloc, others),
        "unmark" => no_mark(others),
        _ => Err("no such operation".into()),
    }
}

/// The operation with this counter in this document, which counts one before it unless it is the
/// first: `1 insert 0 a`.
pub(crate) fn op(alloc: Global, doc: u32, words: &str) -> Result<Op, Fail> {
    let (counter, does) = cut_number(words)?;
    let body = body(alloc, does)?;
    let (id, deps) = place(alloc, counter)?;
    Ok(Op {
        id,
        doc,
        token: None,
        deps,
        body,
    })
}

/// The operations that lines tell.
pub(crate) fn ops(alloc: Global, doc: u32, lines: &str) -> Result<Vec<Op>, Fail> {
    let mut ops = Vec::new(alloc);
    for line in lines.lines() {
        ops.push(op(alloc, doc, line.trim())?)?;
    }
    Ok(ops)
}

/// The token of these tests.
pub(crate) fn token() -> Option<Token> {
    Token::read([0, 0, 0, 0, 0, 0, 0x40, 0, 0x80, 0, 0, 0, 0, 0, 0, 0xd1])
}
