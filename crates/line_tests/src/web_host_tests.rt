//! Which host a guest may name, and from which origins it may come.
use crate::guests::{ASKING, met};
use crate::rows::{Part, judged, made, shown};
use crate::wires::Wire;
use std::alloc::Global;
use std::test::Fail;
use web_guests::Refusal;

const HOSTS: [&[u8]; 4] = [
    b"127.0.0.1:8080",
    b"localhost:8080",
    b"LOCALHOST:8080",
    b"LocalHost:8080",
];

const OTHER_HOSTS: [&[u8]; 20] = [
    b"evil.example:8080",
    b"localhost.evil.example:8080",
    b"evil-localhost:8080",
    b"localhost.:8080",
    b"127.0.0.1.nip.io:8080",
    b"127.1:8080",
    b"0.0.0.0:8080",
    b"[::1]:8080",
    b"localhost",
    b"localhost:",
    b"localhost:80",
    b"localhost:808",
    b"localhost:80800",
    b"localhost:08080",
    b"localhost:+8080",
    b"127.0.0.1",
    b"127.0.0.1:8081",
    b"user@localhost:8080",
    b":8080",
    b"",
];

const NOT_ONCE: [&[u8]; 2] = [
    b"Host: localhost:8080\r\nHost: localhost:8080",
    b"Host: localhost:8080\r\nhost: evil.example:8080",
];

const NAMED: [&[u8]; 3] = [
    b":8080",
    b":8080\r\nOrigin: http://localhost:3000",
    b":8080\r\nORIGIN:http://localhost:3000",
];

const OTHER_ORIGINS: [&[u8]; 15] = [
    b"Origin: null",
    b"Origin: ",
    b"Origin: *",
    b"Origin: http://localhost",
    b"Origin: http://localhost:300",
    b"Origin: http://localhost:30000",
    b"Origin: http://localhost:3000/",
    b"Origin: http://localhost:8080",
    b"Origin: https://localhost:3000",
    b"Origin: http://127.0.0.1:3000",
    b"Origin: http://evil.example",
    b"Origin: http://localhost:3000.evil.example",
    b"Origin: HTTP://LOCALHOST:3000",
    b"Origin: http://localhost:3000 http://localhost:3000",
    b"Origin: http://localhost:3000\r\nOrigin: http://localhost:3000",
];

/// What stands before fields, the fields, and what comes of each head that has them.
static FIELDS: [(&[u8], &[&[u8]], Option<Refusal>); 5] = [
    (b"Host: ", &HOSTS, None),
    (b"Host: ", &OTHER_HOSTS, Some(Refusal::ForbiddenHost)),
    (b"", &NOT_ONCE, Some(Refusal::ForbiddenHost)),
    (b"Host: 127.0.0.1", &NAMED, None),
    (
        b"Host: 127.0.0.1:8080\r\n",
        &OTHER_ORIGINS,
        Some(Refusal::ForbiddenOrigin),
    ),
];

/// Whether this comes of a head with such a field.
fn is_met_with<'a>(
    alloc: Global,
    before: &'a [u8],
    field: &'a [u8],
    outcome: Option<Refusal>,
) -> Result<bool, Fail> {
    let parts: [Part<'a>; 6] = [
        (b"GET /chat HTTP/1.1\r\n", 1),
        (before, 1),
        (field, 1),
        (b"\r\n", 1),
        (ASKING, 1),
        (b"\r\n", 1),
    ];
    let head = made(alloc, &parts)?;
    let mut guest = Wire::new(alloc, &head, 8_192)?;
    Ok(met(alloc, &mut guest)? == outcome)
}

#[test]
fn a_guest_names_this_machine_and_comes_from_a_named_origin(rt: HostRuntime) -> Result<(), Fail> {
    for (before, fields, outcome) in &FIELDS {
        for field in fields.iter() {
            let is_right = is_met_with(rt.alloc(), before, field, *outcome);
            judged(&rt, shown(field), is_right)?;
        }
    }
    Ok(())
}
