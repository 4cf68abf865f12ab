//! The descriptors of standard streams that the program was started without.

use std::fs::File;
use std::io;
use std::os::fd::AsRawFd;
use std::rt::Files;

/// Standard input, output and error have the descriptors 0 to 2.
const STREAMS: usize = 3;

/// Opens files that take those of the descriptors 0 to 2 that are closed, so that no other file
/// gets one of them while these are open. Each is empty and can only be read: input is at its end,
/// and output fails.
pub fn hold_closed_streams<R: Files<File = File>>(rt: &R) -> io::Result<[Option<File>; STREAMS]> {
    let mut held = [None, None, None];
    for place in held.iter_mut() {
        let file = File::open(rt, "/dev/null")?;
        if file.as_raw_fd() >= STREAMS as i32 {
            break;
        }
        *place = Some(file);
    }
    Ok(held)
}
