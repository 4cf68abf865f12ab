//! The web pages that may open WebSockets.

use crate::refusing::{About, Refused};
use command_syntax::ServeOrder;
use std::alloc::Global;
use store_orders::{Fault, Sentence};
use web_guests::{BadOrigin, Origin};

/// The origins that an order names. `Field` (4) where one is none, `Memory` (1) where a growth was
/// refused.
pub fn origins(alloc: Global, order: ServeOrder<'_>) -> Result<Vec<Origin>, Refused<'static>> {
    let mut origins = Vec::new(alloc);
    if let Some(web) = order.web {
        for text in web.origins.as_slice() {
            match Origin::new(alloc, text) {
                Ok(origin) => {
                    if origins.push(origin).is_err() {
                        return Err(refused(Fault::Memory, Sentence::Memory));
                    }
                }
                Err(BadOrigin::OutOfMemory) => {
                    return Err(refused(Fault::Memory, Sentence::Memory));
                }
                Err(BadOrigin::NotAnOrigin) => {
                    return Err(refused(Fault::Field, Sentence::Origin));
                }
            }
        }
    }
    Ok(origins)
}

/// A refusal for a word of the command line.
fn refused(fault: Fault, sentence: Sentence) -> Refused<'static> {
    Refused {
        fault,
        about: About::Word(sentence),
    }
}
