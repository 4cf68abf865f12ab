//! Which texts are taken for origins of web pages.
use crate::rows::judged;
use std::alloc::Global;
use std::test::Fail;
use web_guests::{BadOrigin, Origin};

/// An origin of as many bytes as one has at most, and a text of one more.
const LONGEST: &str =
    "http://aaaaaaaaaaaaaaaaaaaaaaaaaaaaaaaaaaaaaaaaaaaaaaaaaaaaaaaaaaaaaaaaaaaaaaaaaaaaaaaaaaaaaaaaaaaaaaaaaaaaaaaaaaaaaaaaaaaaaaaaaaaaaaaaaaaaaaaaaaaaaaaaaaaaaaaaaaaaaaaaaaaaaaaaaaaaaaaaaaaaaaaaaaaaaaaaaaaaaaaaaaaaaaaaaaaaaaaaaaaaaaaaaaaaaaaaaaaaaaaaaaaaaaaa";

const TOO_LONG: &str =
    "http://aaaaaaaaaaaaaaaaaaaaaaaaaaaaaaaaaaaaaaaaaaaaaaaaaaaaaaaaaaaaaaaaaaaaaaaaaaaaaaaaaaaaaaaaaaaaaaaaaaaaaaaaaaaaaaaaaaaaaaaaaaaaaaaaaaaaaaaaaaaaaaaaaaaaaaaaaaaaaaaaaaaaaaaaaaaaaaaaaaaaaaaaaaaaaaaaaaaaaaaaaaaaaaaaaaaaaaaaaaaaaaaaaaaaaaaaaaaaaaaaaaaaaaaaa";

const _: () = prove!(LONGEST.len() == 255);

const _: () = prove!(TOO_LONG.len() == 256);

const ORIGINS: [&str; 8] = [
    "http://localhost:3000",
    "https://example.com",
    "http://example.com:443",
    "http://[::1]:3000",
    "http://127.0.0.1:1",
    "http://a_b.example:65535",
    "chrome-extension://abcdefghijklmnop",
    LONGEST,
];

const OTHERS: [&str; 28] = [
    "",
    "null",
    "*",
    "localhost:3000",
    "http://",
    "http://:80",
    "http:/localhost",
    "http://localhost:3000/",
    "http://localhost/path",
    "http://Localhost",
    "HTTP://localhost",
    "http://localhost:80",
    "https://localhost:443",
    "http://localhost:0",
    "http://localhost:",
    "http://localhost:03000",
    "http://localhost:+3000",
    "http://localhost:65536",
    "http://localhost:100000",
    "http://user@localhost",
    "http://localhost:3000 ",
    "http://[::1",
    "http://[]",
    "http://::1",
    "://localhost",
    "1http://localhost",
    "http://b\u{fc}cher.example",
    TOO_LONG,
];

/// Texts, and whether they are origins.
static TEXTS: [(&[&str], bool); 2] = [(&ORIGINS, true), (&OTHERS, false)];

/// Whether a text is an origin, as it stands there, or is refused.
fn is_so(alloc: Global, text: &str, is_origin: bool) -> bool {
    match Origin::new(alloc, text) {
        Ok(origin) => is_origin && origin.as_str() == text,
        Err(refusal) => !is_origin && refusal == BadOrigin::NotAnOrigin,
    }
}

#[test]
fn an_origin_is_written_as_browsers_do(rt: HostRuntime) -> Result<(), Fail> {
    for (texts, is_origin) in &TEXTS {
        for text in texts.iter() {
            judged(&rt, text, Ok(is_so(rt.alloc(), text, *is_origin)))?;
        }
    }
    Ok(())
}
