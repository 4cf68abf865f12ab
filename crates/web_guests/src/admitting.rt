//! Letting a guest in, or sending it away.
ghost use Rattle.std.specs.Prelude.{◌≡◌, [], true, false, take, codes, option_map};
ghost use Rattle.std.specs.Prelude.{IfOk, IfErr, OnOk};
ghost use Rattle.std.specs.Io.KnownBytes.{Appends};
ghost use Rattle.httparse.specs.Spans.{IsRequestWithin, span_bytes};
ghost use Rattle.websocket.specs.Handshake.{response_bytes};
ghost use Rattle.websocket.specs.Headers.{fields_of};
ghost use Rattle.tungstenite.specs.Heads.{Serves, Heard};
ghost use Rattle.tungstenite.specs.Config.{HasLimitsOf};
ghost use Rattle.web_guests.specs.Admitting.{Judged, CameIn, CameFrom, MayNotCome};
ghost use Rattle.web_guests.specs.Guests.{origin_in};
ghost use Rattle.web_guests.specs.Stating.{values_of};
ghost use Rattle.web_guests.specs.Causes.{is_forbidden};

use crate::came_in::Guest;
use crate::guest::{may_come, named_by};
use crate::head::read_head;
use crate::origin::Origin;
use crate::refusal::Refusal;
use crate::stated::Stated;
use byte_streams::put;
use httparse::spans::{EMPTY_HEADER_SPAN, HeaderSpan, RequestSpans};
use std::alloc::Global;
use std::io::{Read, Write};
use tungstenite::{NoMask, Role, WebSocket, WebSocketConfig};
use websocket::handshake::server::{check_request, write_response};

/// The most fields of a head.
const MOST_FIELDS: usize = 64;

/// Lets a guest in that asks for a WebSocket and may come, or tells it why not and closes the
/// stream. Nothing after its head was read then. How long that may take is the stream's to say: a
/// read fails (`TimedOut`) and a write ends once the guest's time is over.
pub fn admit<S: Read + Write + Drop>(
    alloc: Global,
    stream: S,
    port: u16,
    named: &[Origin],
    config: Option<WebSocketConfig>,
) -> Result<WebSocket<S, NoMask>, Refusal>
    ensures came { IfOk result (λ socket.
        CameIn S.remaining S.contents port named.now stream socket.stream) }
    ensures serves { IfOk result Serves }
    ensures limits { IfOk result (λ socket. HasLimitsOf socket.conn.config config) }
    ensures sent_away { IfErr result (λ cause. is_forbidden cause ≡ true
        → MayNotCome S.remaining port named.now stream cause) }
{
    match admit_from(alloc, stream, port, named, config) {
        Ok(guest) => Ok(guest.socket),
        Err(refusal) => Err(refusal),
    }
}

/// Lets a guest in, or sends it away, as [`admit`] does, and tells from which web page it comes:
/// the named origin that its head states, or none where its head states none.
pub fn admit_from<'n, S: Read + Write + Drop>(
    alloc: Global,
    mut stream: S,
    port: u16,
    named: &'n [Origin],
    config: Option<WebSocketConfig>,
) -> Result<Guest<'n, S>, Refusal>
    ensures came { IfOk result (λ guest. CameFrom S.remaining S.contents port named.now stream
        guest.socket.stream (option_map (λ origin. origin.now) guest.origin)) }
    ensures serves { IfOk result (λ guest. Serves guest.socket) }
    ensures limits { IfOk result (λ guest. HasLimitsOf guest.socket.conn.config config) }
    ensures sent_away { IfErr result (λ cause. is_forbidden cause ≡ true
        → MayNotCome S.remaining port named.now stream cause) }
{
    match let_in(alloc, &mut stream, port, named) {
        Ok(origin) => Ok(Guest {
            socket: WebSocket::from_raw_socket(alloc, stream, NoMask, Role::Server, config),
            origin,
        }),
        Err(refusal) => {
            // It is sent away also where it doesn't listen.
            let _ = put(&mut stream, refusal.answer());
            Err(refusal)
        }
    }
}

/// Reads a guest's head, and answers it if the guest may come in. Gives the origin that it states.
fn let_in<'n, S: Read + Write>(
    alloc: Global,
    stream: &mut S,
    port: u16,
    named: &'n [Origin],
) -> Result<Option<&'n Origin>, Refusal>
    ensures came { IfOk result (λ origin. CameFrom S.remaining S.contents port named.now
        stream.old stream.new (option_map (λ origin. origin.now) origin)) }
    ensures heard { OnOk result Heard }
    ensures sent_away { IfErr result (λ cause. is_forbidden cause ≡ true
        → MayNotCome S.remaining port named.now stream.old cause) }
{
    let mut head = Vec::new(alloc);
    let mut spans = [EMPTY_HEADER_SPAN; MOST_FIELDS];
    let found = read_head(stream, &mut head, &mut spans)?;
    let accept = judge(&head, &found, &spans, port, named)?;
    welcome(alloc, &accept, stream)?;
    Ok(origin_of(&head, &found, &spans, named))
}

/// The named origin that a head states, if it states one alone.
fn origin_of<'n>(
    head: &[u8],
    found: &RequestSpans,
    spans: &[HeaderSpan],
    named: &'n [Origin],
) -> Option<&'n Origin>
    requires { IsRequestWithin head.now spans.now found.now }
    ensures { option_map (λ origin. origin.now) result ≡ origin_in named.now
        (values_of (fields_of head.now (take found.now.headers spans.now)) (codes "Origin")) }
{
    named_by(Stated::of(head, &spans[..found.headers], b"Origin"), named)
}

/// Answers a guest that comes in.
fn welcome<W: Write>(alloc: Global, accept: &[u8; 28], stream: &mut W) -> Result<(), Refusal>
    ensures ok { OnOk result (Appends (W.contents stream.old) (W.contents stream.new)
        (response_bytes accept.now [])) }
    ensures err { IfErr result (λ cause. is_forbidden cause ≡ false) }
{
    let mut answer = Vec::new(alloc);
    if write_response(accept, &[], &mut answer).is_err() {
        return Err(Refusal::OutOfMemory);
    }
    match put(stream, &answer) {
        Ok(()) => Ok(()),
        Err(_) => Err(Refusal::Failed),
    }
}

/// The key that answers a head, if its guest may come in and asks for a WebSocket.
fn judge(
    head: &[u8],
    found: &RequestSpans,
    spans: &[HeaderSpan],
    port: u16,
    named: &[Origin],
) -> Result<[u8; 28], Refusal>
    requires { IsRequestWithin head.now spans.now found.now }
    ensures { Judged port named.now (span_bytes head.now found.now.method) found.now.version
        (fields_of head.now (take found.now.headers spans.now)) result }
{
    let fields = &spans[..found.headers];
    let host = Stated::of(head, fields, b"Host");
    let origin = Stated::of(head, fields, b"Origin");
    may_come(host, origin, port, named)?;
    match check_request(head, found, spans) {
        Ok(accept) => Ok(accept),
        Err(error) => Err(Refusal::of(error)),
    }
}
