//! Writing what was said.
ghost use Rattle.std.specs.Prelude.{List, ℕ, OnOk, OnErr};
ghost use Rattle.std.specs.Io.KnownBytes.{Appends};
ghost use Rattle.byte_streams.specs.Fronts.{AppendsFront};

use crate::line::Line;
use byte_streams::put;
use std::io;
use std::io::Write;

/// Takes out what was said, writes it and hands it on, where there is any, and answers whether
/// there was. After an error a beginning of it is written.
pub fn write_out<L: Line, W: Write>(line: &mut L, writer: &mut W) -> io::Result<bool>
    ensures ok { OnOk result ((text : List ℕ) × L.gives line.old text line.new
        × Appends (W.contents writer.old) (W.contents writer.new) text) }
    ensures err { OnErr result ((text : List ℕ) × L.gives line.old text line.new
        × AppendsFront (W.contents writer.old) (W.contents writer.new) text) }
{
    let bytes = line.take_out();
    if bytes.is_empty() {
        return Ok(false);
    }
    put(writer, &bytes)?;
    Ok(true)
}
