//! What is told of a file that is checked: it is opened as for showing, and what it holds and its
//! root slots say is one line.
ghost use Rattle.std.specs.Prelude.{◌≡◌, ℕ, IfOk, IfErr};
ghost use Rattle.file_listing.specs.Checked.{said_check};
ghost use Rattle.list_counts.specs.Documents.{room_of};
ghost use Rattle.group_commit.specs.Opening.{IsLookedAt};
ghost use Rattle.root_reports.specs.Reports.{report_of};
ghost use Rattle.store_orders.specs.Shown.{Refuses, Shows};

use crate::fault::Fault;
use crate::listing::check_line;
use crate::printing::print;
use crate::showing::{Shown, opened, unopened};
use command_syntax::CheckOrder;
use disk_trait::Disk;
use recovery::{OpenError, Opened};
use replica_core::Replica;
use root_reports::look;
use std::alloc::Global;
use std::fs::File;
use std::io::Write;
use std::rt::Files;

/// Shows what a check of a file finds, as [`show`](crate::show) does: a line that tells how much is
/// in it and what its root slots say. After the opening, two more reads of the slots.
pub fn show_check<D: Disk>(alloc: Global, disk: D) -> Shown<D>
    ensures { Shows D.DiskFacts
        (λ list. said_check (room_of list) (report_of (D.content disk))) disk
        result.lines result.disk }
{
    match recovery::open(alloc, disk) {
        Ok(Opened { replica, store }) => {
            let mut disk = store.into_disk();
            let lines = found(alloc, &replica, &mut disk);
            Shown { disk, lines }
        }
        Err(fault) => unopened(fault),
    }
}

/// The line of a file that was opened, by its replica and its disk.
fn found<D: Disk>(alloc: Global, replica: &Replica, disk: &mut D) -> Result<Vec<u8>, Fault>
    ensures ok { D.tells disk.old → IfOk result (λ line. line.items
        ≡ said_check (room_of replica.now.list) (report_of (D.content disk.old))) }
    ensures err { D.tells disk.old
        → IfErr result (λ fault. Refuses fault (D.content disk.old)) }
    ensures looks { (failures : ℕ) × IsLookedAt D.DiskFacts failures 0 disk.old disk.new }
{
    match look(alloc, disk) {
        Ok(report) => check_line(alloc, replica, &report),
        Err(error) => Err(Fault::from(OpenError::Load(group_commit::OpenError::from(error)))),
    }
}

/// Prints what a check of a file finds, a line.
pub fn check<R: Files<File = File> + AllocGlobal, W: Write>(
    rt: &R,
    order: CheckOrder<'_>,
    output: &mut W,
) -> Result<(), Fault> {
    let Shown { disk, lines } = show_check(rt.alloc(), opened(rt, order.file)?);
    drop(disk);
    print(&lines?, output)
}
