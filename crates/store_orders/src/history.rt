//! The versions of a document of a file, which is opened and let go of as for other showing.
ghost use Rattle.std.specs.Prelude.{◌≡◌, IfOk, IfErr};
ghost use Rattle.store_orders.specs.Shown.{said_history, Shows};
ghost use Rattle.store_orders.specs.declared.fault.Fault.TheVariants.{Memory};

use crate::fault::Fault;
use crate::printing::print;
use crate::showing::{Shown, opened, unopened};
use command_syntax::HistoryOrder;
use disk_trait::Disk;
use recovery::Opened;
use replica_core::Replica;
use session_lines::{Answer, VersionList, say};
use std::alloc::Global;
use std::fs::File;
use std::io::Write;
use std::rt::Files;

/// Shows the versions of a document, a line, as [`show`](crate::show) does: stretches of its
/// operations in the file's list, each of one replica and of at most `every` operations.
pub fn show_versions<D: Disk>(alloc: Global, disk: D, doc: u32, every: u32) -> Shown<D>
    ensures { Shows D.DiskFacts (λ list. said_history list doc every) disk
        result.lines result.disk }
{
    match recovery::open(alloc, disk) {
        Ok(Opened { replica, store }) => Shown {
            disk: store.into_disk(),
            lines: versions_line(alloc, &replica, doc, every),
        },
        Err(fault) => unopened(fault),
    }
}

/// The versions of a document, a line. `Memory` (1) where a growth was refused.
fn versions_line(alloc: Global, replica: &Replica, doc: u32, every: u32) -> Result<Vec<u8>, Fault>
    ensures ok { IfOk result (λ line. line.items ≡ said_history replica.now.list doc every) }
    ensures err { IfErr result (λ fault. fault ≡ Memory) }
{
    let versions = Answer::Versions {
        rev: replica.rev(doc) as u64,
        versions: VersionList::from(replica.versions(doc, every)?),
    };
    let mut line = Vec::new(alloc);
    say(alloc, &versions, &mut line)?;
    Ok(line)
}

/// Prints the versions of a document in a file.
pub fn print_versions<R: Files<File = File> + AllocGlobal, W: Write>(
    rt: &R,
    order: HistoryOrder<'_>,
    output: &mut W,
) -> Result<(), Fault> {
    let disk = opened(rt, order.file)?;
    let Shown { disk, lines } = show_versions(rt.alloc(), disk, order.doc, order.every);
    drop(disk);
    print(&lines?, output)
}
