//! What the first line of a session asks for.
use crate::rows::judged;
use first_bytes::FirstLine;
use std::alloc::Global;
use std::test::Fail;

/// What is said, and whether its first line asks for the status or a stop.
static SAID: [(&str, bool); 6] = [
    ("{\"op\":\"status\"}\n", true),
    ("{ \"op\": \"stop\" }\n{", true),
    ("{\"op\":\"text\",\"doc\":1}\n{\"op\":\"status\"}\n", false),
    ("{\"op\":\"status\"}", false),
    ("\n{\"op\":\"status\"}\n", false),
    ("", false),
];

/// Whether all of this is read, and is such a line or isn't.
fn is_let_in(alloc: Global, said: &[u8], due: bool) -> bool {
    let mut first = FirstLine::new();
    let mut reader = said;
    let _ = first.wait_for(&mut reader);
    first.as_slice() == said && first.asks_for_status_or_stop(alloc) == due
}

#[test]
fn a_status_or_a_stop_is_told_by_the_first_line(rt: HostRuntime) -> Result<(), Fail> {
    for (said, due) in &SAID {
        judged(&rt, said, Ok(is_let_in(rt.alloc(), said.as_bytes(), *due)))?;
    }
    Ok(())
}
