//! Streams whose calls are interrupted.
use crate::rows::judged;
use crate::wires::{Faults, Wire};
use byte_streams::{put, read_some};
use std::alloc::Global;
use std::io::ErrorKind;
use std::test::Fail;

/// Every second call is interrupted, the first one too.
const INTERRUPTED: Faults = Faults {
    kind: ErrorKind::Interrupted,
    left: 0,
    again: 1,
};

static COUNTS: [usize; 4] = [3, 3, 2, 0];

/// Whether all is written, and then read 3 bytes at a time.
fn are_made_again(alloc: Global) -> Result<bool, Fail> {
    let mut stream = Wire::new(alloc, b"abcdefgh", 3)?;
    stream.reads = INTERRUPTED;
    stream.writes = INTERRUPTED;
    stream.takes = 3;
    put(&mut stream, b"abcdefgh")?;
    let mut piece = [0; 8];
    for count in &COUNTS {
        if read_some(&mut stream, &mut piece)? != *count {
            return Ok(false);
        }
    }
    Ok(stream.told.as_slice() == b"abcdefgh".as_slice())
}

#[test]
fn an_interrupted_call_is_made_again(rt: HostRuntime) -> Result<(), Fail> {
    judged(&rt, "interrupted", are_made_again(rt.alloc()))
}
