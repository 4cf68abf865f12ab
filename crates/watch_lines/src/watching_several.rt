//! A session that is told of changes of several documents, over any source and writer.
ghost use Rattle.std.specs.Prelude.{List, OnOk, OnErr};
ghost use Rattle.std.specs.BTreeMap.{get};
ghost use Rattle.std.specs.Io.KnownBytes.{Appends};
ghost use Rattle.byte_streams.specs.Fronts.{AppendsFront};
ghost use Rattle.session_lines.specs.Saying.{said_watched};
ghost use Rattle.watch_lines.specs.Telling.{is_above};
ghost use Rattle.watch_lines.specs.TellingSeveral.{GaveOf, IsOverOf, told_of};
ghost use Rattle.watch_lines.specs.declared.several_source.NextOf.{NextOf};

use crate::line_room::LineRoom;
use crate::several_source::{NextOf, SeveralSource};
use crate::watching::{is_above, tell};
use byte_streams::{endless, put};
use session_lines::{Answer, Refusal};
use std::alloc::Global;
use std::collections::BTreeMap;
use std::io;
use std::io::Write;

/// Tells of each number that a source gives of a document and that is above the last one told of
/// this document, with the document, until nobody is to be told any more; or until nothing more is
/// settled, which is told as a refusal (9). A line is handed on before the source is asked again:
/// beside the line only the number told last of each document is kept. An error is the writer's,
/// of the last line a beginning is written then; or out of memory for the number of another
/// document. A search by halves for each number.
pub fn serve_several<W: Write, S: SeveralSource>(
    alloc: Global,
    room: &mut LineRoom,
    writer: &mut W,
    source: &mut S,
) -> io::Result<()>
    ensures ok { OnOk result ((given : List NextOf) × GaveOf S.gives source.old given source.new
        × IsOverOf given
        × Appends (W.contents writer.old) (W.contents writer.new) (told_of given)) }
    ensures err { OnErr result ((given : List NextOf) × GaveOf S.gives source.old given source.new
        × AppendsFront (W.contents writer.old) (W.contents writer.new) (told_of given)) }
{
    let mut last = BTreeMap::new(alloc);
    for _ in 0..u64::MAX {
        match source.next() {
            NextOf::Rev { doc, rev } if is_above(rev, last.get(&doc).copied()) => {
                last.insert(doc, rev)?;
                tell_of(room, writer, doc, rev)?;
            }
            NextOf::Rev { .. } => {}
            NextOf::Quiet => {}
            NextOf::Failed => {
                return tell(alloc, room, writer, Answer::Refused(Refusal::Failed));
            }
            NextOf::Closed => return Ok(()),
        }
    }
    Err(endless())
}

/// Writes the line of a document's number, and hands it on.
fn tell_of<W: Write>(room: &mut LineRoom, writer: &mut W, doc: u32, rev: u64) -> io::Result<()>
    ensures ok { OnOk result
        (Appends (W.contents writer.old) (W.contents writer.new) (said_watched doc rev)) }
    ensures err { OnErr result
        (AppendsFront (W.contents writer.old) (W.contents writer.new) (said_watched doc rev)) }
{
    room.say_watched(doc, rev);
    put(writer, room.as_slice())
}
