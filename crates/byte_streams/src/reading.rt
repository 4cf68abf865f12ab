//! Reading bytes.
ghost use Rattle.std.specs.Io.{ReadsAtMost};
ghost use Rattle.std.specs.Io.KnownBytes.{ReadConsumes};

use std::io;
use std::io::{ErrorKind, Read};

/// The error after 2^64 tries.
pub fn endless() -> io::Error {
    io::Error::other("too many tries")
}

/// Reads some bytes to the front of a piece; none only at the end of the input. A call that was
/// interrupted is made again.
pub fn read_some<R: Read>(reader: &mut R, piece: &mut [u8]) -> io::Result<usize>
    ensures bound { ReadsAtMost result piece.new }
    ensures bytes { ReadConsumes (R.remaining reader.old) (R.remaining reader.new)
        result piece.new }
{
    for _ in 0..u64::MAX {
        match reader.read(piece) {
            Err(error) if error.kind() == ErrorKind::Interrupted => {}
            done => return done,
        }
    }
    Err(endless())
}
