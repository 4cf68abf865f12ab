//! An import into a file.

use command_syntax::ImportOrder;
use disk_trait::FileDisk;
use std::fs::File;
use std::io::Write;
use std::rt::Files;
use store_orders::{Fault, import};

/// Puts a page in a document of a file, where that can be opened, and gives whether all of it is
/// in.
pub fn import_into<R: Files<File = File> + Input + AllocGlobal, W: Write>(
    rt: &R,
    order: ImportOrder<'_>,
    output: &mut W,
) -> Result<bool, Fault> {
    match FileDisk::open(rt, order.file) {
        Ok(disk) => import(rt.alloc(), order, disk, rt.reader(), output).end,
        Err(_) => Err(Fault::OpenFailed),
    }
}
