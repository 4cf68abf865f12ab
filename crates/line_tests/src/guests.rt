//! Guests that ask for a WebSocket, and what comes of them.
use crate::wires::Wire;
use std::alloc::Global;
use std::test::Fail;
use web_guests::{Origin, Refusal, admit};

/// The fields that each request for a WebSocket has.
pub const ASKING: &[u8] = b"Upgrade: websocket\r\nConnection: Upgrade\r\n\
    Sec-WebSocket-Key: dGhlIHNhbXBsZSBub25jZQ==\r\nSec-WebSocket-Version: 13\r\n";

/// The origins with these texts.
pub fn origins(alloc: Global, texts: &[&str]) -> Result<Vec<Origin>, Fail> {
    let mut all = Vec::new(alloc);
    for text in texts {
        all.push(Origin::new(alloc, text)?)?;
    }
    Ok(all)
}

/// What comes of a guest: `None` where it is let in.
pub fn met(alloc: Global, guest: &mut Wire) -> Result<Option<Refusal>, Fail> {
    let named = origins(alloc, &["http://localhost:3000"])?;
    Ok(admit(alloc, guest, 8_080, &named, None).err())
}
