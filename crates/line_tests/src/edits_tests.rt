//! How several edits of one line are read.
use crate::request_tests::{Lines, all_read, has_others};
use crate::rows::{judged, shown};
use session_lines::Refusal;
use std::alloc::Global;
use std::test::Fail;

const NO_LIST_ENDS: [&[u8]; 1] = [b"{\"op\":\"edits\",\"doc\":1,\"edits\":[}"];

const NO_REQUESTS: [&[u8]; 2] = [
    b"{\"op\":\"edit\",\"doc\":1,\"edits\":[{\"op\":\"delete\",\"at\":0,\"count\":1}]}",
    b"{\"doc\":1,\"edits\":[{\"op\":\"delete\",\"at\":0,\"count\":1}]}",
];

const NO_LISTS: [&[u8]; 13] = [
    b"{\"op\":\"edits\",\"doc\":1}",
    b"{\"op\":\"edits\",\"doc\":1,\"edits\":null}",
    b"{\"op\":\"edits\",\"doc\":1,\"edits\":{}}",
    b"{\"op\":\"edits\",\"doc\":1,\"edits\":[]}",
    b"{\"op\":\"edits\",\"edits\":[{\"op\":\"delete\",\"at\":0,\"count\":1}]}",
    b"{\"op\":\"edits\",\"doc\":0,\"edits\":[{\"op\":\"delete\",\"at\":0,\"count\":1}]}",
    b"{\"op\":\"edits\",\"doc\":1,\"rev\":null,\"edits\":[{\"op\":\"delete\",\"at\":0,\"count\":1}]}",
    b"{\"op\":\"edits\",\"doc\":1,\"rev\":-1,\"edits\":[{\"op\":\"delete\",\"at\":0,\"count\":1}]}",
    b"{\"op\":\"edits\",\"doc\":1,\"token\":null,\"edits\":[{\"op\":\"delete\",\"at\":0,\"count\":1}]}",
    b"{\"op\":\"edits\",\"doc\":1,\"token\":\"00000000-0000-0000-0000-000000000000\",\"edits\":[{\"op\":\"delete\",\"at\":0,\"count\":1}]}",
    b"{\"op\":\"edits\",\"doc\":1,\"at\":0,\"edits\":[{\"op\":\"delete\",\"at\":0,\"count\":1}]}",
    b"{\"op\":\"delete\",\"doc\":1,\"at\":0,\"count\":1,\"edits\":[{\"op\":\"delete\",\"at\":0,\"count\":1}]}",
    b"{\"op\":\"text\",\"doc\":1,\"edits\":[{\"op\":\"delete\",\"at\":0,\"count\":1}]}",
];

static LINES: [Lines; 5] = [
    (&NO_LIST_ENDS, Err(Refusal::Syntax)),
    (&NO_REQUESTS, Err(Refusal::Request)),
    (&NO_LISTS, Err(Refusal::Field)),
    (
        &[
            b"{\"op\":\"edits\",\"doc\":1,\"rev\":14,\"token\":\"abababab-abab-abab-abab-abababababab\",\"edits\":[{\"op\":\"delete\",\"at\":4,\"count\":3},{\"op\":\"insert\",\"at\":4,\"text\":\"TWO\"},{\"op\":\"mark\",\"from\":4,\"to\":7,\"kind\":\"strong\"},{\"op\":\"unmark\",\"from\":0,\"to\":2,\"kind\":\"comment\",\"id\":\"00000000000000000000000000000000\"}]}",
        ],
        Ok(
            "Edit(PlacedAction { action: Action { first: Edit { doc: 1, rev: Some(14), token: Some(Token { number: Words { high: 12370169555311111083, low: 12370169555311111083 } }), change: Delete { at: 4, count: 3 } }, others: [Insert { at: 4, text: EditText { characters: ['T', 'W', 'O'] } }, Mark { from: 4, to: 7, mark: Strong }, Unmark { from: 0, to: 2, key: Comment(CommentId { number: 0 }) }] }, first: Spots { from: None, to: None }, others: [Spots { from: None, to: None }, Spots { from: None, to: None }, Spots { from: None, to: None }] })",
        ),
    ),
    (
        &[b"{\"edits\":[{\"count\":1,\"at\":0,\"op\":\"delete\"}],\"doc\":2,\"op\":\"edits\"}"],
        Ok(
            "Edit(PlacedAction { action: Action { first: Edit { doc: 2, rev: None, token: None, change: Delete { at: 0, count: 1 } }, others: [] }, first: Spots { from: None, to: None }, others: [] })",
        ),
    ),
];

#[test]
fn several_edits_are_read_in_order_or_refused(rt: HostRuntime) -> Result<(), Fail> {
    all_read(&rt, &LINES)
}

/// What stands before an edit that is the only one of its line, or the second.
static BEFORE: [&[u8]; 2] = [
    b"{\"op\":\"edits\",\"doc\":1,\"edits\":[",
    b"{\"op\":\"edits\",\"doc\":1,\"edits\":[{\"op\":\"delete\",\"at\":0,\"count\":1},",
];

/// Edits that break a rule.
static BROKEN: [&[u8]; 30] = [
    b"7",
    b"[]",
    b"null",
    b"{}",
    b"{\"op\":1,\"at\":0,\"count\":1}",
    b"{\"at\":0,\"count\":1}",
    b"{\"op\":\"fly\",\"at\":0,\"count\":1}",
    b"{\"op\":\"text\"}",
    b"{\"op\":\"status\"}",
    b"{\"op\":\"stop\"}",
    b"{\"op\":\"edits\",\"edits\":[{\"op\":\"delete\",\"at\":0,\"count\":1}]}",
    b"{\"op\":\"delete\",\"doc\":1,\"at\":0,\"count\":1}",
    b"{\"op\":\"delete\",\"rev\":1,\"at\":0,\"count\":1}",
    b"{\"op\":\"delete\",\"token\":\"abababab-abab-abab-abab-abababababab\",\"at\":0,\"count\":1}",
    b"{\"op\":\"insert\",\"doc\":1,\"at\":0,\"text\":\"a\"}",
    b"{\"op\":\"mark\",\"doc\":1,\"from\":0,\"to\":1,\"kind\":\"link\",\"url\":\"u\"}",
    b"{\"op\":\"unmark\",\"doc\":1,\"from\":0,\"to\":1,\"kind\":\"strong\"}",
    b"{\"op\":\"delete\",\"at\":0,\"count\":0}",
    b"{\"op\":\"delete\",\"at\":0}",
    b"{\"op\":\"delete\",\"at\":-1,\"count\":1}",
    b"{\"op\":\"delete\",\"at\":0,\"count\":1,\"text\":\"a\"}",
    b"{\"op\":\"insert\",\"at\":0,\"text\":\"\"}",
    b"{\"op\":\"insert\",\"at\":0,\"text\":\"a\",\"count\":1}",
    b"{\"op\":\"insert\",\"at\":1.0,\"text\":\"a\"}",
    b"{\"op\":\"mark\",\"from\":0,\"to\":1,\"kind\":\"bold\"}",
    b"{\"op\":\"mark\",\"from\":0,\"to\":1,\"kind\":\"strong\",\"url\":\"u\"}",
    b"{\"op\":\"mark\",\"from\":0,\"to\":1,\"kind\":\"link\"}",
    b"{\"op\":\"mark\",\"from\":0,\"to\":1,\"kind\":\"comment\",\"id\":\"c1\"}",
    b"{\"op\":\"unmark\",\"from\":0,\"to\":1,\"kind\":\"link\",\"url\":\"u\"}",
    b"{\"op\":\"unmark\",\"from\":0,\"kind\":\"em\"}",
];

/// Whether a line with this edit, alone or as the second, is refused.
fn is_refused(alloc: Global, broken: &[u8]) -> Result<bool, Fail> {
    for before in &BEFORE {
        let parts = [(*before, 1), (broken, 1), (b"]}".as_slice(), 1)];
        if !has_others(alloc, &parts, Err(Refusal::Field))? {
            return Ok(false);
        }
    }
    Ok(true)
}

#[test]
fn each_of_several_edits_keeps_its_rules(rt: HostRuntime) -> Result<(), Fail> {
    for broken in &BROKEN {
        judged(&rt, shown(broken), is_refused(rt.alloc(), broken))?;
    }
    Ok(())
}
