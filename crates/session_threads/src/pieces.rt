//! The lines of a piece of the input.
ghost use Rattle.std.specs.Prelude.{◌≡◌, ◌==◌, ◌∷◌, ◌++◌, List, ℕ, Option, OnOk, OnErr, MatchOption, position};
ghost use Rattle.std.specs.Io.KnownBytes.{Appends};
ghost use Rattle.session_threads.specs.Held.{FitsALine, lines_after, held_after, HasNoFeed};
ghost use Rattle.session_threads.specs.Exchanges.{Exchanges};
ghost use Rattle.byte_streams.specs.Fronts.{BeginsWith};
ghost use Rattle.session_threads.specs.Outcomes.{CutOff};

use crate::desk::Desk;
use crate::exchange::exchange;
use crate::room::Room;
use std::alloc::Global;
use std::io;
use std::io::Write;

/// The end of each line.
const FEED: u8 = b'\n';

/// Where the first line feed is.
fn first_feed(bytes: &[u8]) -> Option<usize>
    ensures { result ≡ position (λ byte. byte == 10) bytes.now }
{
    bytes.iter().position(|byte| *byte == FEED)
}

/// What stands before the first line feed, and what stands behind it.
fn first_line(bytes: &[u8]) -> Option<(&[u8], &[u8])>
    ensures { MatchOption result (HasNoFeed bytes.now) (λ parts. HasNoFeed parts.0.now
        × (bytes.now ≡ parts.0.now ++ 10 ∷ parts.1.now)) }
{
    match first_feed(bytes) {
        Some(end) => Some((&bytes[..end], &bytes[end + 1..])),
        None => None,
    }
}

/// Answers each line that ends in this piece of the input, and holds what is there of the next one.
pub(crate) fn serve_piece<W: Write, D: Desk>(
    alloc: Global,
    piece: &[u8],
    room: &mut Room,
    writer: &mut W,
    desk: &mut D,
) -> io::Result<()>
    requires { FitsALine room.old.line }
    ensures fits { OnOk result (FitsALine room.new.line) }
    ensures line { OnOk result (room.new.line ≡ held_after room.old.line piece.now) }
    ensures ok { OnOk result ((text : List ℕ)
        × Exchanges D.serves desk.old (lines_after room.old.line piece.now) text desk.new
        × Appends (W.contents writer.old) (W.contents writer.new) text) }
    ensures err { OnErr result ((lines : List (Option (List ℕ))) × (text : List ℕ)
        × BeginsWith (lines_after room.old.line piece.now) lines
        × CutOff D.serves desk.old lines text desk.new
        × Appends (W.contents writer.old) (W.contents writer.new) text) }
{
    let mut rest = piece;
    while let Some((end, later)) = first_line(rest) {
        room.line.push(end);
        exchange(alloc, room, writer, desk)?;
        room.line.clear();
        rest = later;
    }
    room.line.push(rest);
    Ok(())
}
