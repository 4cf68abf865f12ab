//! How a run of the program ends.

use crate::fault::Fault;
use disk_trait::Disk;
use std::alloc::Global;
use std::io::Write;

/// The disk of a run that ended, and its fault if there was one.
#[derive(Drop)]
pub struct Ended<D: Disk> {
    pub disk: D,
    pub end: Result<(), Fault>,
}

/// The exit status of a run that ended so. A fault is written where faults go, as
/// `peritext: NUMBER WORD`; where that fails too, nothing more can be told.
pub fn status<F: Write>(alloc: Global, end: Result<(), Fault>, faults: &mut F) -> u8 {
    match end {
        Ok(()) => 0,
        Err(fault) => {
            tell(alloc, fault, faults);
            1
        }
    }
}

/// Writes what ended a run.
fn tell<F: Write>(alloc: Global, fault: Fault, faults: &mut F) {
    let number = fault.number();
    let line = match format!(in alloc; "peritext: {number} {fault}\n") {
        Ok(line) => line,
        Err(_) => return tell_bytes(b"peritext: 1 memory\n", faults),
    };
    tell_bytes(line.as_bytes(), faults);
}

/// Writes where faults go.
fn tell_bytes<F: Write>(bytes: &[u8], faults: &mut F) {
    if faults.write_all(bytes).is_ok() {
        let _ = faults.flush();
    }
}
