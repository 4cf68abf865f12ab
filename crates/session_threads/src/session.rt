//! A session, over any reader, writer and desk.
ghost use Rattle.std.specs.Prelude.{◌≡◌, Some, [], Err, OnOk, OnErr};
ghost use Rattle.session_threads.specs.declared.fault.SessionFault.TheVariants.{Memory};
ghost use Rattle.session_threads.specs.Outcomes.{Served, CutShort};

use crate::desk::Desk;
use crate::fault::SessionFault;
use crate::pieces::serve_piece;
use crate::room::Room;
use byte_streams::{endless, read_some};
use std::alloc::Global;
use std::io;
use std::io::{Read, Write};

/// How many bytes are read at once.
const PIECE: usize = 4_096;

/// Requests come from a reader, a line each, and a writer takes the answers to them, a line each.
#[derive(Debug, Drop)]
pub struct Session<R, W> {
    pub reader: R,
    pub writer: W,
}

impl<R: Read, W: Write> Session<R, W> {
    /// A session over these two.
    pub fn new(reader: R, writer: W) -> Session<R, W>
        ensures reader { result.reader ≡ reader }
        ensures writer { result.writer ≡ writer }
    {
        Session { reader, writer }
    }

    /// Serves each line until the end of the input: a rest without line feed is no line. The desk
    /// serves those that are commands; each answer is written and handed on before the next line is
    /// looked at. `Memory` (1) where the 65,664 bytes that a session holds are refused; nothing is
    /// read then. `Stream` (71) where a read or a write fails; what was read behind the last line
    /// that was answered is lost. The time beside the desk's is that of the input's length.
    pub fn serve<D: Desk>(&mut self, alloc: Global, desk: &mut D) -> Result<(), SessionFault>
        ensures ok { OnOk result (Served D.serves desk.old desk.new
            (R.remaining self.old.reader) (R.remaining self.new.reader)
            (W.contents self.old.writer) (W.contents self.new.writer)) }
        ensures err { OnErr result (CutShort D.serves desk.old desk.new
            (R.remaining self.old.reader) (R.remaining self.new.reader)
            (W.contents self.old.writer) (W.contents self.new.writer)) }
        ensures memory { result ≡ Err Memory → (self.new ≡ self.old) × (desk.new ≡ desk.old) }
    {
        serve_lines(alloc, &mut self.reader, &mut self.writer, desk)
    }
}

/// Serves the lines of a reader, as `Session::serve` does, to a writer that the caller keeps.
pub fn serve_lines<R: Read, W: Write, D: Desk>(
    alloc: Global,
    reader: &mut R,
    writer: &mut W,
    desk: &mut D,
) -> Result<(), SessionFault>
    ensures ok { OnOk result (Served D.serves desk.old desk.new (R.remaining reader.old)
        (R.remaining reader.new) (W.contents writer.old) (W.contents writer.new)) }
    ensures err { OnErr result (CutShort D.serves desk.old desk.new (R.remaining reader.old)
        (R.remaining reader.new) (W.contents writer.old) (W.contents writer.new)) }
    ensures memory { result ≡ Err Memory
        → (reader.new ≡ reader.old) × (writer.new ≡ writer.old) × (desk.new ≡ desk.old) }
{
    let mut room = Room::new(alloc)?;
    match serve_input(alloc, reader, &mut room, writer, desk) {
        Ok(()) => Ok(()),
        Err(error) => Err(SessionFault::Stream(error)),
    }
}

/// Serves each line until the end of the input.
fn serve_input<R: Read, W: Write, D: Desk>(
    alloc: Global,
    reader: &mut R,
    room: &mut Room,
    writer: &mut W,
    desk: &mut D,
) -> io::Result<()>
    requires { room.old.line ≡ Some [] }
    ensures ok { OnOk result (Served D.serves desk.old desk.new (R.remaining reader.old)
        (R.remaining reader.new) (W.contents writer.old) (W.contents writer.new)) }
    ensures err { OnErr result (CutShort D.serves desk.old desk.new (R.remaining reader.old)
        (R.remaining reader.new) (W.contents writer.old) (W.contents writer.new)) }
{
    let mut piece = [0; PIECE];
    for _ in 0..u64::MAX {
        let count = read_some(reader, &mut piece)?;
        if count == 0 {
            return Ok(());
        }
        serve_piece(alloc, &piece[..count], room, writer, desk)?;
    }
    Err(endless())
}
