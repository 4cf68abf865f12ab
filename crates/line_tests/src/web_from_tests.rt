//! From which web page a guest comes.
use crate::guests::{ASKING, origins};
use crate::rows::{judged, made};
use crate::wires::Wire;
use std::alloc::Global;
use std::test::Fail;
use web_guests::{Guest, Origin, admit_from};

/// The fields that state an origin, and the origin that is told.
static FROM: [(&str, Option<&str>); 3] = [
    ("", None),
    (
        "Origin: http://localhost:3000\r\n",
        Some("http://localhost:3000"),
    ),
    (
        "origin: https://page.example\r\n",
        Some("https://page.example"),
    ),
];

/// Whether an origin has this text, or there is none and no text.
fn is_due(origin: Option<&Origin>, due: Option<&str>) -> bool {
    match (origin, due) {
        (Some(origin), Some(due)) => origin.as_str() == due,
        (None, None) => true,
        _ => false,
    }
}

/// Whether a guest comes in, and this origin is told.
fn comes_in(alloc: Global, guest: &mut Wire, named: &[Origin], due: Option<&str>) -> bool {
    match admit_from(alloc, guest, 8_080, named, None) {
        Ok(Guest { origin, .. }) => is_due(origin, due),
        Err(_) => false,
    }
}

/// Whether a guest with these fields comes in, and this origin is told.
fn comes_from(alloc: Global, fields: &str, due: Option<&str>) -> Result<bool, Fail> {
    let named = origins(alloc, &["http://localhost:3000", "https://page.example"])?;
    let head = made(
        alloc,
        &[
            (b"GET / HTTP/1.1\r\nHost: localhost:8080\r\n", 1),
            (fields.as_bytes(), 1),
            (ASKING, 1),
            (b"\r\n", 1),
        ],
    )?;
    let mut guest = Wire::new(alloc, &head, 8_192)?;
    Ok(comes_in(alloc, &mut guest, &named, due))
}

#[test]
fn the_named_origin_is_told(rt: HostRuntime) -> Result<(), Fail> {
    for (fields, due) in &FROM {
        judged(&rt, fields, comes_from(rt.alloc(), fields, *due))?;
    }
    Ok(())
}
