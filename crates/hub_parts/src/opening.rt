//! The opening of a hub's two parts.
ghost use Rattle.std.specs.Prelude.{IfOk, IfErr};
ghost use Rattle.root_slots.specs.Root.{version_of};
ghost use Rattle.group_commit.specs.Opening.{IsLoaded, IsLookedAt, HandsBack};
ghost use Rattle.recovery.specs.Faults.{IsFault, failures_of, is_of_sync};
ghost use Rattle.recovery.specs.Image.{IsImage};
ghost use Rattle.hub_parts.specs.Opening.{IsOpened};

use crate::flusher::Flusher;
use crate::locked::Locked;
use disk_trait::Disk;
use recovery::{OpenError, OpenFault, Opened};
use run_list::RunList;
use std::alloc::Global;

/// The two parts of a hub.
#[derive(Drop)]
pub struct Parts<D: Disk> {
    pub locked: Locked,
    pub flusher: Flusher<D>,
}

/// Opens the file of a disk: a sync, and then reads alone.
///
/// Refuses as `recovery::open` does, with a device number, 42, 43, 45, 46, 47 or 1, and hands the
/// disk back. Costs what `recovery::open` does, and a copy of the list.
pub fn open<D: Disk>(alloc: Global, disk: D) -> Result<Parts<D>, OpenFault<D>>
    // The replica is that of the file's image, as it is right after opening.
    ensures image { D.tells disk → IfOk result (λ it. IsImage (D.content disk)
        it.locked.replica.replica (version_of it.flusher.store.current.body)
        it.locked.replica.list) }
    ensures opened { IfOk result (λ it. IsOpened it.locked it.flusher) }
    // The store is of the file's live root, and a crash leaves that file.
    ensures loaded { IfOk result (λ it. IsLoaded D.DiskFacts disk it.flusher.store
        it.locked.replica.replica it.locked.replica.list) }
    ensures fault { D.tells disk → IfErr result (λ fault. IsFault fault.cause (D.content disk)) }
    // It writes nothing, and tells a sync that failed from a read that did.
    ensures looks { IfOk result (λ it. IsLookedAt D.DiskFacts 0 1 disk it.flusher.store.disk) }
    ensures looks_refused { IfErr result (λ fault. HandsBack D.DiskFacts
        (failures_of fault.cause) (is_of_sync fault.cause) disk fault.disk) }
{
    let Opened { replica, store } = recovery::open(alloc, disk)?;
    let ops = replica.list();
    let begun = ops.len();
    let begun_bytes = replica.records_length();
    let mut list = RunList::new(alloc);
    if list.extend_from(&ops, 0).is_err() {
        return Err(OpenFault {
            cause: OpenError::Load(group_commit::OpenError::Memory),
            disk: store.into_disk(),
        });
    }
    Ok(Parts {
        locked: Locked {
            replica,
            begun,
            begun_bytes,
            failure_told: false,
            waiting: Vec::new(alloc),
        },
        flusher: Flusher {
            store,
            list,
            due: false,
        },
    })
}
