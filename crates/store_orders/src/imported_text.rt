//! The text that is read for an import.

use crate::fault::Fault;
use byte_streams::read_some;
use std::alloc::Global;
use std::io::Read;

/// How many bytes are read at once at most.
const PIECE: usize = 16_384;

/// The characters that a reader gives, to its end. `Stream` (71) where a read failed, `Field` (4)
/// where the bytes are no UTF-8, and `Memory` (1) where a growth was refused.
pub(crate) fn read_characters<R: Read + Drop>(alloc: Global, input: R) -> Result<Vec<char>, Fault> {
    let bytes = read_all(alloc, input)?;
    match std::str::from_utf8(&bytes) {
        Ok(text) => Ok(text.chars().collect(alloc)?),
        Err(_) => Err(Fault::Field),
    }
}

/// The bytes that a reader gives, to its end.
fn read_all<R: Read + Drop>(alloc: Global, input: R) -> Result<Vec<u8>, Fault> {
    let mut reader = input;
    let mut bytes = Vec::new(alloc);
    let mut piece = [0; PIECE];
    for _ in 0..u64::MAX {
        match read_some(&mut reader, &mut piece) {
            Ok(0) => return Ok(bytes),
            Ok(count) => bytes.extend_from_slice(&piece[..count])?,
            Err(_) => return Err(Fault::Stream),
        }
    }
    Err(Fault::Stream)
}
