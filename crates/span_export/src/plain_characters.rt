//! The characters of a document's spans.
ghost use Rattle.std.specs.Prelude.{◌≡◌, IfOk, encode_utf8_all};
ghost use Rattle.span_export.specs.Putting.{Puts};
ghost use Rattle.span_export.specs.Reading.{text_of};

use crate::putting::put;
use op_model::Span;
use std::alloc::{AllocError, Global};

/// The characters of spans, as UTF-8, and nothing else. An error is out of memory (1). The time is
/// that of the text's length.
pub(crate) fn plain_text(alloc: Global, spans: &[Span]) -> Result<Vec<u8>, AllocError>
    ensures { IfOk result (λ text. text.items ≡ text_of spans.now) }
{
    let mut out = Vec::new(alloc);
    for span in spans {
        put_characters(span.text.as_slice(), &mut out)?;
    }
    Ok(out)
}

/// Puts characters, as UTF-8.
fn put_characters(characters: &[char], out: &mut Vec<u8>) -> Result<(), AllocError>
    ensures { Puts result out.old out.new (encode_utf8_all characters.now) }
{
    let mut bytes = [0; 4];
    for character in characters {
        put(character.encode_utf8(&mut bytes).as_bytes(), out)?;
    }
    Ok(())
}
