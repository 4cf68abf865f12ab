//! Which guests come in by a WebSocket, and what the others are told.
use crate::guests::{ASKING, met};
use crate::rows::{Part, judged, made, shown};
use crate::wires::{Faults, Wire};
use std::alloc::Global;
use std::io::ErrorKind;
use std::test::Fail;
use web_guests::Refusal;

/// The request of RFC 6455, section 1.3, at another host and from another origin.
const EXAMPLE: &[u8] = b"GET /chat HTTP/1.1\r\n\
    Host: localhost:8080\r\n\
    Upgrade: websocket\r\n\
    Connection: Upgrade\r\n\
    Sec-WebSocket-Key: dGhlIHNhbXBsZSBub25jZQ==\r\n\
    Origin: http://localhost:3000\r\n\
    Sec-WebSocket-Protocol: chat, superchat\r\n\
    Sec-WebSocket-Version: 13\r\n\r\n";

/// The beginning of a request at this machine.
const START: &[u8] = b"GET / HTTP/1.1\r\nHost: localhost:8080\r\n";

/// How long a head is whose field `A` is empty.
const EMPTY: usize = START.len() + ASKING.len() + b"A: \r\n\r\n".len();

/// How an answer begins, what stands in it, and how it ends.
type Answer = (&'static str, &'static str, &'static str);

const ANY: Answer = ("", "", "");

const NO_REQUEST: Answer = ("HTTP/1.1 400 ", "\r\nConnection: close\r\n", "");

/// Whether an answer is such a one.
fn is_such(told: &[u8], (start, within, end): Answer) -> bool {
    match str::from_utf8(told) {
        Ok(text) => text.starts_with(start) && text.contains(within) && text.ends_with(end),
        Err(_) => false,
    }
}

/// Whether this comes of a guest that says this, given so many bytes at a time, and it is told such an
/// answer.
fn is_met(
    alloc: Global,
    said: &[u8],
    size: usize,
    outcome: Option<Refusal>,
    answer: Answer,
) -> Result<bool, Fail> {
    let mut guest = Wire::new(alloc, said, size)?;
    let found = met(alloc, &mut guest)?;
    Ok(found == outcome && is_such(&guest.told, answer))
}

/// What a row shows, what is said, how many bytes are given at a time, what comes of it, and what is
/// told.
type Row = (
    &'static str,
    &'static [Part<'static>],
    &'static [usize],
    Option<Refusal>,
    Answer,
);

static ROWS: [Row; 17] = [
    (
        "the request of the standard",
        &[(EXAMPLE, 1)],
        &[80, 81, 200, 1_000],
        None,
        (
            "HTTP/1.1 101 Switching Protocols\r\n",
            "sec-websocket-accept: s3pPLMBiTxaQ9kYGzzhZRbK+xOo=\r\n",
            "\r\n\r\n",
        ),
    ),
    (
        "more than a head",
        &[(EXAMPLE, 1), (b"x", 1)],
        &[8_192],
        Some(Refusal::NotWebSocket),
        ANY,
    ),
    (
        "nothing of a WebSocket",
        &[(START, 1), (b"\r\n", 1)],
        &[8_192],
        Some(Refusal::NotWebSocket),
        NO_REQUEST,
    ),
    (
        "POST",
        &[
            (b"POST / HTTP/1.1\r\nHost: localhost:8080\r\n", 1),
            (ASKING, 1),
            (b"\r\n", 1),
        ],
        &[8_192],
        Some(Refusal::NotWebSocket),
        NO_REQUEST,
    ),
    (
        "HTTP/1.0",
        &[
            (b"GET / HTTP/1.0\r\nHost: localhost:8080\r\n", 1),
            (ASKING, 1),
            (b"\r\n", 1),
        ],
        &[8_192],
        Some(Refusal::NotWebSocket),
        NO_REQUEST,
    ),
    (
        "HTTP/2",
        &[
            (b"GET / HTTP/2\r\nHost: localhost:8080\r\n", 1),
            (ASKING, 1),
            (b"\r\n", 1),
        ],
        &[8_192],
        Some(Refusal::NotWebSocket),
        NO_REQUEST,
    ),
    (
        "a line of a session",
        &[(b"{\"op\":\"status\"}\r\nHost: localhost:8080\r\n\r\n", 1)],
        &[8_192],
        Some(Refusal::NotWebSocket),
        NO_REQUEST,
    ),
    (
        "a short key",
        &[
            (START, 1),
            (
                b"Upgrade: websocket\r\nConnection: Upgrade\r\n\
                    Sec-WebSocket-Key: short\r\nSec-WebSocket-Version: 13\r\n\r\n",
                1,
            ),
        ],
        &[8_192],
        Some(Refusal::NotWebSocket),
        NO_REQUEST,
    ),
    (
        "version 8",
        &[
            (START, 1),
            (
                b"Upgrade: websocket\r\nConnection: Upgrade\r\n\
                    Sec-WebSocket-Key: dGhlIHNhbXBsZSBub25jZQ==\r\n\
                    Sec-WebSocket-Version: 8\r\n\r\n",
                1,
            ),
        ],
        &[8_192],
        Some(Refusal::WrongVersion),
        ("HTTP/1.1 426 ", "\r\nConnection: close\r\n", ""),
    ),
    (
        "no host",
        &[(b"GET /chat HTTP/1.1\r\n", 1), (ASKING, 1), (b"\r\n", 1)],
        &[8_192],
        Some(Refusal::ForbiddenHost),
        ANY,
    ),
    (
        "another host",
        &[
            (b"GET / HTTP/1.1\r\nHost: evil.example:8080\r\n", 1),
            (ASKING, 1),
            (b"\r\n", 1),
        ],
        &[8_192],
        Some(Refusal::ForbiddenHost),
        (
            "HTTP/1.1 403 Forbidden\r\n",
            "",
            "\r\n\r\nThis page may not come in.",
        ),
    ),
    (
        "8,192 bytes",
        &[
            (START, 1),
            (ASKING, 1),
            (b"A: ", 1),
            (b"a", 8_192 - EMPTY),
            (b"\r\n\r\n", 1),
        ],
        &[1_000],
        None,
        ANY,
    ),
    (
        "8,193 bytes",
        &[
            (START, 1),
            (ASKING, 1),
            (b"A: ", 1),
            (b"a", 8_193 - EMPTY),
            (b"\r\n\r\n", 1),
        ],
        &[1_000],
        Some(Refusal::TooLong),
        ANY,
    ),
    (
        "100,000 bytes",
        &[
            (START, 1),
            (ASKING, 1),
            (b"A: ", 1),
            (b"a", 100_000 - EMPTY),
            (b"\r\n\r\n", 1),
        ],
        &[1_000],
        Some(Refusal::TooLong),
        ANY,
    ),
    (
        "64 fields",
        &[
            (b"GET /chat HTTP/1.1\r\nHost: localhost:8080\r\n", 1),
            (b"A: b\r\n", 59),
            (ASKING, 1),
            (b"\r\n", 1),
        ],
        &[8_192],
        None,
        ANY,
    ),
    (
        "65 fields",
        &[
            (b"GET /chat HTTP/1.1\r\nHost: localhost:8080\r\n", 1),
            (b"A: b\r\n", 60),
            (ASKING, 1),
            (b"\r\n", 1),
        ],
        &[8_192],
        Some(Refusal::TooLong),
        ANY,
    ),
    (
        "byte by byte",
        &[
            (START, 1),
            (b"X: ", 1),
            (b"a", 500),
            (b"\r\n", 1),
            (ASKING, 1),
            (b"\r\n", 1),
        ],
        &[1],
        None,
        ANY,
    ),
];

/// Whether that is so of what a row says, at this size.
fn is_so(alloc: Global, row: &Row, size: usize) -> Result<bool, Fail> {
    let (_, parts, _, outcome, answer) = row;
    let said = made(alloc, parts)?;
    is_met(alloc, &said, size, *outcome, *answer)
}

#[test]
fn a_request_for_a_web_socket_comes_in_and_nothing_else(rt: HostRuntime) -> Result<(), Fail> {
    for row in &ROWS {
        for size in row.2.iter() {
            judged(&rt, row.0, is_so(rt.alloc(), row, *size))?;
        }
    }
    Ok(())
}

/// Whether a guest that stops here is told nothing.
fn is_told_nothing(alloc: Global, said: &[u8]) -> Result<bool, Fail> {
    let mut guest = Wire::new(alloc, said, 8_192)?;
    let found = met(alloc, &mut guest)?;
    Ok(found == Some(Refusal::Failed) && guest.told.is_empty())
}

#[test]
fn a_head_that_is_cut_anywhere_is_told_nothing(rt: HostRuntime) -> Result<(), Fail> {
    for end in 0..EXAMPLE.len() {
        let cut = &EXAMPLE[..end];
        judged(&rt, shown(cut), is_told_nothing(rt.alloc(), cut))?;
    }
    Ok(())
}

/// Every call fails so.
fn always(kind: ErrorKind) -> Faults {
    Faults {
        kind,
        left: 0,
        again: 0,
    }
}

/// Whether a guest that gives nothing in time, and takes nothing, is too slow.
fn is_too_slow(alloc: Global) -> Result<bool, Fail> {
    let mut guest = Wire::new(alloc, b"", 0)?;
    guest.reads = always(ErrorKind::TimedOut);
    guest.writes = always(ErrorKind::BrokenPipe);
    Ok(met(alloc, &mut guest)? == Some(Refusal::TooSlow))
}

#[test]
fn a_silent_guest_is_too_slow(rt: HostRuntime) -> Result<(), Fail> {
    judged(&rt, "silence", is_too_slow(rt.alloc()))
}
