//! Asking a daemon, of which the answers are written beforehand.
use crate::rows::judged;
use daemon_asking::{AskFault, ask_all, is_ok};
use std::alloc::Global;
use std::test::Fail;

/// What a row shows; requests, the answers of a daemon, what is sent to it, what is printed, and how
/// the asking ends.
type Row = (
    &'static str,
    &'static str,
    &'static str,
    &'static str,
    &'static str,
    Result<bool, AskFault>,
);

const OK: &str = "{\"ok\":true}\n";

static ROWS: [Row; 8] = [
    ("nothing is asked", "", "", "", "", Ok(true)),
    (
        "two lines",
        "a\nb\n",
        "{\"ok\":true}\n{\"ok\":true}\n",
        "a\nb\n",
        "{\"ok\":true}\n{\"ok\":true}\n",
        Ok(true),
    ),
    (
        "a line without its line feed, and an answer that is a refusal",
        "a\nb",
        "{\"ok\":false}\n{\"ok\":true}\n",
        "a\nb\n",
        "{\"ok\":false}\n{\"ok\":true}\n",
        Ok(false),
    ),
    (
        "what isn't asked for isn't printed",
        "a\n",
        "{\"ok\":true}\n{\"ok\":true}\n",
        "a\n",
        OK,
        Ok(true),
    ),
    (
        "no answer at all",
        "a\n",
        "",
        "a\n",
        "",
        Err(AskFault::Unanswered),
    ),
    (
        "one answer too few",
        "a\nb\nc\n",
        OK,
        "a\nb\n",
        OK,
        Err(AskFault::Unanswered),
    ),
    (
        "a watch, whose answers go on",
        "{\"op\":\"watch\",\"doc\":1}\nb\n",
        "{\"ok\":true,\"rev\":1}\n{\"ok\":true,\"rev\":2}\n",
        "{\"op\":\"watch\",\"doc\":1}\n",
        "{\"ok\":true,\"rev\":1}\n{\"ok\":true,\"rev\":2}\n",
        Ok(true),
    ),
    (
        "a watch that is refused",
        "{\"op\":\"watch\",\"doc\":1}\nb\n",
        "{\"ok\":false}\n{\"ok\":true}\n",
        "{\"op\":\"watch\",\"doc\":1}\nb\n",
        "{\"ok\":false}\n{\"ok\":true}\n",
        Ok(false),
    ),
];

fn is_so(alloc: Global, row: &Row) -> bool {
    let (_, requests, answers, sent, printed, end) = row;
    let (mut daemon, mut output) = (Vec::new(alloc), Vec::new(alloc));
    let mut requests = requests.as_bytes();
    let mut answers = answers.as_bytes();
    let ended = ask_all(alloc, &mut requests, &mut daemon, &mut answers, &mut output);
    ended == *end && daemon.as_slice() == sent.as_bytes() && output.as_slice() == printed.as_bytes()
}

#[test]
fn each_answer_is_printed_before_the_next_line_is_sent(rt: HostRuntime) -> Result<(), Fail> {
    for row in &ROWS {
        judged(&rt, row.0, Ok(is_so(rt.alloc(), row)))?;
    }
    Ok(())
}

/// Answers, and whether each says that it is ok.
static ANSWERS: [(&str, bool); 10] = [
    ("{\"ok\":true}\n", true),
    (
        "{\"ok\":true,\"rev\":3,\"text\":\"\\\"ok\\\":false\"}",
        true,
    ),
    (
        "{\"code\":2,\"error\":\"\\\"ok\\\":true\",\"ok\":false}\n",
        false,
    ),
    ("{\"ok\":\"true\"}\n", false),
    ("{\"ok\":1}\n", false),
    ("{}\n", false),
    ("[{\"ok\":true}]\n", false),
    ("{\"ok\":true", false),
    ("\n", false),
    ("HTTP/1.1 200 OK\r\n", false),
];

#[test]
fn an_answer_is_ok_if_it_says_so(rt: HostRuntime) -> Result<(), Fail> {
    for (line, due) in &ANSWERS {
        let is_due = is_ok(rt.alloc(), line.as_bytes())? == *due;
        judged(&rt, line, Ok(is_due))?;
    }
    Ok(())
}
