//! The token of an edit's line.
use crate::request_tests::{Lines, all_read};
use session_lines::Refusal;
use std::test::Fail;

/// An edit takes a token in any text form of a UUID.
const FORMS: [&[u8]; 5] = [
    b"{\"op\":\"insert\",\"doc\":1,\"at\":0,\"text\":\"a\",\
        \"token\":\"abababab-abab-abab-abab-abababababab\"}",
    b"{\"op\":\"insert\",\"doc\":1,\"at\":0,\"text\":\"a\",\
        \"token\":\"ABABABAB-abab-ABAB-abab-ABABABABABAB\"}",
    b"{\"op\":\"insert\",\"doc\":1,\"at\":0,\"text\":\"a\",\
        \"token\":\"abababababababababababababababab\"}",
    b"{\"op\":\"insert\",\"doc\":1,\"at\":0,\"text\":\"a\",\
        \"token\":\"{abababab-abab-abab-abab-abababababab}\"}",
    b"{\"op\":\"insert\",\"doc\":1,\"at\":0,\"text\":\"a\",\
        \"token\":\"urn:uuid:abababab-abab-abab-abab-abababababab\"}",
];

const NO_TOKENS: [&[u8]; 7] = [
    b"{\"op\":\"insert\",\"doc\":1,\"at\":0,\"text\":\"a\",\"token\":null}",
    b"{\"op\":\"insert\",\"doc\":1,\"at\":0,\"text\":\"a\",\"token\":1}",
    b"{\"op\":\"insert\",\"doc\":1,\"at\":0,\"text\":\"a\",\"token\":\"\"}",
    b"{\"op\":\"insert\",\"doc\":1,\"at\":0,\"text\":\"a\",\"token\":\"d1\"}",
    b"{\"op\":\"insert\",\"doc\":1,\"at\":0,\"text\":\"a\",\
        \"token\":\"00000000-0000-0000-0000-000000000000\"}",
    b"{\"op\":\"insert\",\"doc\":1,\"at\":0,\"text\":\"a\",\
        \"token\":\"00000000000000000000000000000000\"}",
    b"{\"op\":\"insert\",\"doc\":1,\"at\":0,\"text\":\"a\",\
        \"token\":[\"abababab-abab-abab-abab-abababababab\"]}",
];

const NO_EDITS: [&[u8]; 4] = [
    b"{\"op\":\"text\",\"doc\":1,\"token\":\"abababab-abab-abab-abab-abababababab\"}",
    b"{\"op\":\"spans\",\"doc\":1,\"token\":\"abababab-abab-abab-abab-abababababab\"}",
    b"{\"op\":\"status\",\"token\":\"abababab-abab-abab-abab-abababababab\"}",
    b"{\"op\":\"stop\",\"token\":\"abababab-abab-abab-abab-abababababab\"}",
];

static LINES: [Lines; 8] = [
    (&NO_TOKENS, Err(Refusal::Field)),
    (&NO_EDITS, Err(Refusal::Field)),
    (
        &FORMS,
        Ok(
            "Edit(PlacedAction { action: Action { first: Edit { doc: 1, rev: None, token: Some(Token { number: Words { high: 12370169555311111083, low: 12370169555311111083 } }), change: Insert { at: 0, text: EditText { characters: ['a'] } } }, others: [] }, first: Spots { from: None, to: None }, others: [] })",
        ),
    ),
    (
        &[
            b"{\"token\":\"d1d1d1d1-d1d1-d1d1-d1d1-d1d1d1d1d1d1\",\
            \"doc\":1,\"op\":\"insert\",\"at\":0,\"text\":\"a\"}",
        ],
        Ok(
            "Edit(PlacedAction { action: Action { first: Edit { doc: 1, rev: None, token: Some(Token { number: Words { high: 15119096123158024657, low: 15119096123158024657 } }), change: Insert { at: 0, text: EditText { characters: ['a'] } } }, others: [] }, first: Spots { from: None, to: None }, others: [] })",
        ),
    ),
    (
        &[
            b"{\"token\":\"d1d1d1d1-d1d1-d1d1-d1d1-d1d1d1d1d1d1\",\
            \"doc\":1,\"op\":\"delete\",\"at\":0,\"count\":1}",
        ],
        Ok(
            "Edit(PlacedAction { action: Action { first: Edit { doc: 1, rev: None, token: Some(Token { number: Words { high: 15119096123158024657, low: 15119096123158024657 } }), change: Delete { at: 0, count: 1 } }, others: [] }, first: Spots { from: None, to: None }, others: [] })",
        ),
    ),
    (
        &[
            b"{\"token\":\"d1d1d1d1-d1d1-d1d1-d1d1-d1d1d1d1d1d1\",\
            \"doc\":1,\"op\":\"mark\",\"from\":0,\"to\":1,\"kind\":\"link\",\"url\":\"u\"}",
        ],
        Ok(
            "Edit(PlacedAction { action: Action { first: Edit { doc: 1, rev: None, token: Some(Token { number: Words { high: 15119096123158024657, low: 15119096123158024657 } }), change: Mark { from: 0, to: 1, mark: Link(Url { text: \"u\" }) } }, others: [] }, first: Spots { from: None, to: None }, others: [] })",
        ),
    ),
    (
        &[
            b"{\"token\":\"d1d1d1d1-d1d1-d1d1-d1d1-d1d1d1d1d1d1\",\
            \"doc\":1,\"op\":\"unmark\",\"from\":0,\"to\":1,\"kind\":\"em\"}",
        ],
        Ok(
            "Edit(PlacedAction { action: Action { first: Edit { doc: 1, rev: None, token: Some(Token { number: Words { high: 15119096123158024657, low: 15119096123158024657 } }), change: Unmark { from: 0, to: 1, key: Em } }, others: [] }, first: Spots { from: None, to: None }, others: [] })",
        ),
    ),
    (
        &[
            b"{\"token\":\"d1d1d1d1-d1d1-d1d1-d1d1-d1d1d1d1d1d1\",\
            \"doc\":1,\"op\":\"edits\",\"edits\":[{\"op\":\"delete\",\"at\":0,\"count\":1}]}",
        ],
        Ok(
            "Edit(PlacedAction { action: Action { first: Edit { doc: 1, rev: None, token: Some(Token { number: Words { high: 15119096123158024657, low: 15119096123158024657 } }), change: Delete { at: 0, count: 1 } }, others: [] }, first: Spots { from: None, to: None }, others: [] })",
        ),
    ),
];

#[test]
fn each_edit_takes_a_token_in_any_form(rt: HostRuntime) -> Result<(), Fail> {
    all_read(&rt, &LINES)
}
