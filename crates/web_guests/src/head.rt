//! Reading the head of a request.
ghost use Rattle.std.specs.Prelude.{◌≡◌, ◌++◌, [], false, length, IfOk, IfErr, OnOk};
ghost use Rattle.std.specs.Io.KnownBytes.{Consumes};
ghost use Rattle.httparse.specs.Spans.{IsRequestWithin, IsRequestOf};
ghost use Rattle.web_guests.specs.Causes.{is_forbidden};
ghost use Rattle.web_guests.specs.Reading.{TakesMore};

use crate::refusal::Refusal;
use first_bytes::has_to_wait;
use httparse::spans::{HeaderSpan, RequestSpans, parse_request};
use httparse::{Error, Status};
use std::io::{ErrorKind, Read};

/// The longest head, in bytes.
const LONGEST: usize = 8_192;

/// How many times at most is read until the head is there: a read that was neither the last one nor
/// interrupted has given a byte at least.
const TURNS: usize = 2 * LONGEST;

/// Reads a head from a stream of which nothing was read, and finds its parts. A guest that says
/// more than its head before it is answered is refused, and so is one whose time is over (the
/// stream's `TimedOut`).
pub(crate) fn read_head<S: Read>(
    stream: &mut S,
    head: &mut Vec<u8>,
    spans: &mut [HeaderSpan],
) -> Result<RequestSpans, Refusal>
    requires { head.old.items ≡ [] }
    ensures taken { OnOk result
        (Consumes (S.remaining stream.old) (S.remaining stream.new) head.new.items) }
    ensures within { IfOk result (IsRequestWithin head.new.items spans.new) }
    ensures parsed { IfOk result (IsRequestOf head.new.items spans.new) }
    ensures whole { IfOk result (λ found. found.len ≡ length head.new.items) }
    ensures err { IfErr result (λ cause. is_forbidden cause ≡ false) }
{
    for _ in 0..TURNS {
        read_once(stream, head)?;
        match parse_request(head, spans) {
            Ok(Status::Complete(found)) if found.len == head.len() => return Ok(found),
            Ok(Status::Complete(_)) => return Err(Refusal::NotWebSocket),
            Ok(Status::Partial) => {}
            Err(Error::TooManyHeaders) => return Err(Refusal::TooLong),
            Err(_) => return Err(Refusal::NotWebSocket),
        }
    }
    Err(Refusal::TooSlow)
}

/// Reads once, after what is there; nothing if the read was interrupted or would have to wait.
fn read_once<S: Read>(stream: &mut S, head: &mut Vec<u8>) -> Result<(), Refusal>
    ensures ok { OnOk result (TakesMore (S.remaining stream.old) (S.remaining stream.new)
        head.old.items head.new.items) }
    ensures err { IfErr result (λ cause. is_forbidden cause ≡ false) }
{
    let mut piece = [0; LONGEST];
    match stream.read(&mut piece) {
        Ok(0) => Err(Refusal::Failed),
        Ok(count) => add(&piece[..count], head),
        Err(error) if error.kind() == ErrorKind::TimedOut => Err(Refusal::TooSlow),
        Err(error) if has_to_wait(error.kind()) => Ok(()),
        Err(_) => Err(Refusal::Failed),
    }
}

/// Adds what was read, if the head doesn't get too long by it.
fn add(piece: &[u8], head: &mut Vec<u8>) -> Result<(), Refusal>
    ensures ok { OnOk result (head.new.items ≡ head.old.items ++ piece.now) }
    ensures err { IfErr result (λ cause. is_forbidden cause ≡ false) }
{
    if piece.len() > LONGEST - head.len().min(LONGEST) {
        return Err(Refusal::TooLong);
    }
    match head.extend_from_slice(piece) {
        Ok(()) => Ok(()),
        Err(_) => Err(Refusal::OutOfMemory),
    }
}
