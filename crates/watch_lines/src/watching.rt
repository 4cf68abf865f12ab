//! A session that is told of changes, over any source and writer.
ghost use Rattle.std.specs.Prelude.{◌≡◌, false, List, OnOk, OnErr};
ghost use Rattle.std.specs.Io.KnownBytes.{Appends};
ghost use Rattle.byte_streams.specs.Fronts.{AppendsFront};
ghost use Rattle.session_lines.specs.Saying.{said, is_long};
ghost use Rattle.watch_lines.specs.Telling.{Gave, IsOver, is_above, told};
ghost use Rattle.watch_lines.specs.declared.source.Next.{Next};

use crate::line_room::LineRoom;
use crate::source::{Next, Source};
use byte_streams::{endless, put};
use session_lines::{Answer, Refusal};
use std::alloc::Global;
use std::io;
use std::io::Write;

/// Tells of each number that a source gives and that is above the last one told, as of an edit that
/// is settled, until nobody is to be told any more; or until nothing more is settled, which is told
/// as a refusal (9). A line is handed on before the source is asked again: so of numbers that come
/// meanwhile the newest alone is told, and there is never more than a line to keep. An error is the
/// writer's; of the last line a beginning is written then.
pub fn serve_watch<W: Write, S: Source>(
    alloc: Global,
    room: &mut LineRoom,
    writer: &mut W,
    source: &mut S,
) -> io::Result<()>
    ensures ok { OnOk result ((given : List Next) × Gave S.gives source.old given source.new
        × IsOver given
        × Appends (W.contents writer.old) (W.contents writer.new) (told given)) }
    ensures err { OnErr result ((given : List Next) × Gave S.gives source.old given source.new
        × AppendsFront (W.contents writer.old) (W.contents writer.new) (told given)) }
{
    let mut last = None;
    for _ in 0..u64::MAX {
        match source.next(last) {
            Next::Rev(rev) if is_above(rev, last) => {
                tell(alloc, room, writer, Answer::Edited { rev })?;
                last = Some(rev);
            }
            Next::Rev(_) => {}
            Next::Quiet => {}
            Next::Failed => {
                return tell(alloc, room, writer, Answer::Refused(Refusal::Failed));
            }
            Next::Closed => return Ok(()),
        }
    }
    Err(endless())
}

/// Whether a number is above the last one that was told, if any was.
pub(crate) fn is_above(rev: u64, last: Option<u64>) -> bool
    ensures { result ≡ is_above rev last }
{
    match last {
        Some(last) => last < rev,
        None => true,
    }
}

/// Writes an answer that needs no memory, and hands it on.
pub(crate) fn tell<W: Write>(
    alloc: Global,
    room: &mut LineRoom,
    writer: &mut W,
    answer: Answer,
) -> io::Result<()>
    requires { is_long answer ≡ false }
    ensures ok { OnOk result
        (Appends (W.contents writer.old) (W.contents writer.new) (said answer)) }
    ensures err { OnErr result
        (AppendsFront (W.contents writer.old) (W.contents writer.new) (said answer)) }
{
    room.say(alloc, &answer);
    put(writer, room.as_slice())
}
