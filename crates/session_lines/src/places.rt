//! Places that last, and where they stand, as JSON.
ghost use Rattle.std.specs.Prelude.{◌++◌, false};
ghost use Rattle.session_lines.specs.Words.{said_list};
ghost use Rattle.session_lines.specs.Putting.{Puts};
ghost use Rattle.session_lines.specs.Anchors.{id_text, lasting_text};
ghost use Rattle.session_lines.specs.Saying.{said_anchor, said_place};

use crate::numbered::put_number;
use crate::quoted::{comma, put};
use op_ids::OpId;
use op_model::{Anchor, Lasting};
use std::alloc::AllocError;
use uuid::Uuid;

/// Puts an id as text: its counter, an `@`, and its replica.
fn put_id(id: OpId, out: &mut Vec<u8>) -> Result<(), AllocError>
    ensures { Puts result out.old out.new (id_text id) }
{
    let mut buffer = Uuid::encode_buffer();
    let name = Uuid::from_bytes(id.replica().bytes())
        .hyphenated()
        .encode_lower(&mut buffer);
    put_number(id.counter(), out)?;
    put(b"@", out)?;
    put(name.as_bytes(), out)
}

/// Puts the text of a place beside a character: its side, and the character's id.
fn put_beside(side: &[u8], id: OpId, out: &mut Vec<u8>) -> Result<(), AllocError>
    ensures { Puts result out.old out.new (side.now ++ id_text id) }
{
    put(side, out)?;
    put_id(id, out)
}

/// Puts the text of a place.
fn put_lasting(place: &Lasting, out: &mut Vec<u8>) -> Result<(), AllocError>
    ensures { Puts result out.old out.new (lasting_text place.now) }
{
    match place {
        Lasting::StartOfText => put(b"start", out),
        Lasting::EndOfText => put(b"end", out),
        Lasting::Beside(Anchor::After(id)) => put_beside(b"a", *id, out),
        Lasting::Beside(Anchor::Before(id)) => put_beside(b"b", *id, out),
    }
}

/// Puts a place as a JSON string.
fn put_anchor(place: &Lasting, out: &mut Vec<u8>) -> Result<(), AllocError>
    ensures { Puts result out.old out.new (said_anchor place.now) }
{
    put(b"\"", out)?;
    put_lasting(place, out)?;
    put(b"\"", out)
}

/// Puts places, and the closing bracket.
pub(crate) fn put_anchors(places: &[Lasting], out: &mut Vec<u8>) -> Result<(), AllocError>
    ensures { Puts result out.old out.new (said_list said_anchor false places.now) }
{
    let mut later = false;
    for place in places {
        put(comma(later), out)?;
        put_anchor(place, out)?;
        later = true;
    }
    put(b"]", out)
}

/// Puts where a place stands, or that it isn't known.
fn put_place(place: Option<usize>, out: &mut Vec<u8>) -> Result<(), AllocError>
    ensures { Puts result out.old out.new (said_place place) }
{
    match place {
        Some(at) => put_number(at as u64, out),
        None => put(b"null", out),
    }
}

/// Puts where places stand, and the closing bracket.
pub(crate) fn put_places(places: &[Option<usize>], out: &mut Vec<u8>) -> Result<(), AllocError>
    ensures { Puts result out.old out.new (said_list said_place false places.now) }
{
    let mut later = false;
    for place in places {
        put(comma(later), out)?;
        put_place(*place, out)?;
        later = true;
    }
    put(b"]", out)
}
