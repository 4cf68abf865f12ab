//! Streams whose calls fail where a test wants it.
use std::alloc::{AllocError, Global};
use std::io;
use std::io::{ErrorKind, Read, Write};
use std::test::Fail;

/// Which calls fail, and how: one after so many that don't, and then one after so many more.
#[derive(Clone, Copy, Drop)]
pub struct Faults {
    pub kind: ErrorKind,
    pub left: usize,
    pub again: usize,
}

/// None fails.
pub const NEVER: Faults = Faults {
    kind: ErrorKind::Other,
    left: usize::MAX,
    again: usize::MAX,
};

impl Faults {
    /// Whether the next call fails.
    fn next(&mut self) -> io::Result<()> {
        if self.left == 0 {
            self.left = self.again;
            return Err(io::Error::from(self.kind));
        }
        self.left -= 1;
        Ok(())
    }
}

/// Gives its input, so many bytes at a time, then ends; keeps what is written, so many at a time.
#[derive(Drop)]
pub struct Wire {
    input: Vec<u8>,
    given: usize,
    pub gives: usize,
    pub reads: Faults,
    pub told: Vec<u8>,
    pub takes: usize,
    pub writes: Faults,
}

impl Wire {
    /// A stream that gives so many bytes at a time, takes all, and never fails.
    pub fn new(alloc: Global, input: &[u8], gives: usize) -> Result<Wire, AllocError> {
        Ok(Wire {
            input: Vec::from_slice(alloc, input)?,
            given: 0,
            gives,
            reads: NEVER,
            told: Vec::new(alloc),
            takes: usize::MAX,
            writes: NEVER,
        })
    }
}

impl Read for Wire {
    fn read(&mut self, buf: &mut [u8]) -> io::Result<usize> {
        self.reads.next()?;
        let rest = self.input.get(self.given..).unwrap_or(&[]);
        let count = rest.len().min(self.gives).min(buf.len());
        buf[..count].copy_from_slice(&rest[..count]);
        self.given = self.given.saturating_add(count);
        Ok(count)
    }
}

impl Write for Wire {
    fn write(&mut self, buf: &[u8]) -> io::Result<usize> {
        self.writes.next()?;
        let count = buf.len().min(self.takes);
        self.told.extend_from_slice(&buf[..count])?;
        Ok(count)
    }

    fn flush(&mut self) -> io::Result<()> {
        Ok(())
    }
}

/// What a reader gives next, or nothing where it has to wait.
fn next_piece<R: Read>(reader: &mut R, piece: &mut [u8]) -> io::Result<Option<usize>> {
    match reader.read(piece) {
        Ok(count) => Ok(Some(count)),
        Err(error) if error.kind() == ErrorKind::WouldBlock => Ok(None),
        Err(error) => Err(error),
    }
}

/// All that a reader gives; where it has to wait the next read goes on.
pub fn all_of<R: Read>(alloc: Global, reader: &mut R) -> Result<Vec<u8>, Fail> {
    let mut all = Vec::new(alloc);
    let mut piece = [0; 50];
    for _ in 0..400_000 {
        match next_piece(reader, &mut piece)? {
            Some(0) => break,
            Some(count) => all.extend_from_slice(piece.get(..count).unwrap_or(&[]))?,
            None => {}
        }
    }
    Ok(all)
}
