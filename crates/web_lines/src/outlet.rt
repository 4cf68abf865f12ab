//! The way out over a stream to which a session's reader and its writer write.
ghost use Rattle.std.specs.Prelude.{◌≡◌, ◌++◌, ◌<◌, [], false, length, take, Ok, IfOk, OnOk, OnErr, IsTrue, ◌↔◌};
ghost use Rattle.std.specs.Io.{WritesAtMost};
ghost use Rattle.std.specs.Io.KnownBytes.{Appends};
ghost use Rattle.web_lines.specs.Outgoing.{GoesOut};

use byte_streams::endless;
use std::alloc::Global;
use std::io;
use std::io::{ErrorKind, Write};
use std::marker::Model;

/// The way out over a stream to which both ends of a session write: the one that reads its replies
/// (pongs and closes), the other its lines. A reply that was taken goes out whole before anything
/// else, and none is taken while a line is written in part: so a frame never comes into the middle
/// of another one, also where the stream takes only a part of what it is given.
#[derive(Debug, Drop)]
pub struct Outlet {
    waiting: Vec<u8>,
    is_cut: bool,
}

/// Contracts see what waits of replies, and whether a line was written in part.
impl Model for Outlet {
    ghost use Rattle.web_lines.specs.Outgoing.{Outgoing};

    ghost Value = { Outgoing };

    ghost view = { λ outlet. record { waiting = outlet.waiting.items; is_cut = outlet.is_cut } };
}

impl Outlet {
    /// Nothing waits, and no line was begun.
    pub fn new(alloc: Global) -> Outlet
        ensures waiting { result.waiting ≡ [] }
        ensures cut { result.is_cut ≡ false }
    {
        Outlet {
            waiting: Vec::new(alloc),
            is_cut: false,
        }
    }

    /// Writes what waits. If it fails a beginning of that was written, and the next call goes on.
    pub fn settle<W: Write>(&mut self, stream: &mut W) -> io::Result<()>
        ensures out { GoesOut (W.contents stream.old) (W.contents stream.new)
            self.old.waiting self.new.waiting }
        ensures empty { OnOk result (self.new.waiting ≡ []) }
        ensures cut { self.new.is_cut ≡ self.old.is_cut }
    {
        for _ in 0..u64::MAX {
            if self.waiting.is_empty() {
                return Ok(());
            }
            self.write_waiting(stream)?;
        }
        Err(endless())
    }

    /// Writes once of what waits.
    fn write_waiting<W: Write>(&mut self, stream: &mut W) -> io::Result<()>
        ensures out { GoesOut (W.contents stream.old) (W.contents stream.new)
            self.old.waiting self.new.waiting }
        ensures cut { self.new.is_cut ≡ self.old.is_cut }
    {
        match stream.write(&self.waiting) {
            Ok(0) => Err(io::Error::from(ErrorKind::WriteZero)),
            Ok(count) => {
                self.waiting.drain(..count);
                Ok(())
            }
            Err(error) if error.kind() == ErrorKind::Interrupted => Ok(()),
            Err(error) => Err(error),
        }
    }

    /// Takes a reply, whole: it goes out after what waits, now or at a later call. Nothing of it is
    /// taken if the stream doesn't take what waits; if a line was written in part (`WouldBlock`);
    /// or if there is no memory (`OutOfMemory`).
    pub fn reply<W: Write>(&mut self, stream: &mut W, frames: &[u8]) -> io::Result<usize>
        ensures whole { IfOk result (λ count. count ≡ length frames.now) }
        ensures ok { OnOk result (GoesOut (W.contents stream.old) (W.contents stream.new)
            (self.old.waiting ++ frames.now) self.new.waiting) }
        ensures between { OnOk result (self.old.is_cut ≡ false) }
        ensures err { OnErr result (GoesOut (W.contents stream.old) (W.contents stream.new)
            self.old.waiting self.new.waiting) }
        ensures cut { self.new.is_cut ≡ self.old.is_cut }
    {
        if self.is_cut {
            return Err(io::Error::from(ErrorKind::WouldBlock));
        }
        self.settle(stream)?;
        self.waiting.extend_from_slice(frames)?;
        // It was taken: why it waits is told by the next call.
        let _ = self.settle(stream);
        Ok(frames.len())
    }

    /// Writes of lines, after all that waits, as the stream takes them: all that is left of them is
    /// to be given at each call. Until all was taken no reply is.
    pub fn write<W: Write>(&mut self, stream: &mut W, lines: &[u8]) -> io::Result<usize>
        ensures bound { WritesAtMost result lines.now }
        ensures ok { IfOk result (λ count. Appends (W.contents stream.old) (W.contents stream.new)
            (self.old.waiting ++ take count lines.now)) }
        ensures empty { OnOk result (self.new.waiting ≡ []) }
        ensures cut { IfOk result (λ count. IsTrue self.new.is_cut ↔ (count < length lines.now)) }
        ensures err { OnErr result (GoesOut (W.contents stream.old) (W.contents stream.new)
            self.old.waiting self.new.waiting) }
        ensures kept { OnErr result (self.new.is_cut ≡ self.old.is_cut) }
    {
        self.settle(stream)?;
        let count = stream.write(lines)?;
        self.is_cut = count < lines.len();
        Ok(count)
    }
}
