//! The opening of a file.
ghost use Rattle.std.specs.Prelude.{◌≡◌, ◌≢◌, IfOk, IfErr};
ghost use Rattle.root_slots.specs.Root.{version_of};
ghost use Rattle.group_commit.specs.Opening.{IsLoaded, IsLookedAt, HandsBack};
ghost use Rattle.group_commit.specs.declared.open_fault.OpenError.TheVariants.{Memory as LoadMemory};
ghost use Rattle.op_model.specs.Held.{opened_with};
ghost use Rattle.recovery.specs.Faults.{IsFault, failures_of, is_of_sync};
ghost use Rattle.recovery.specs.Image.{IsImage};

use crate::open_fault::{OpenError, OpenFault};
use disk_trait::Disk;
use group_commit::{Loaded, Store};
use replica_core::{Refusal, Replica};
use std::alloc::Global;

/// A file that was opened: the replica that it stands for, and its store.
#[derive(Drop)]
pub struct Opened<D: Disk> {
    pub replica: Replica,
    pub store: Store<D>,
}

/// Opens the file of a disk: a sync, and then reads alone.
///
/// Refuses with the first of these that it meets: 52 where the sync failed, and 50 where a read
/// did; 42, 43, 45, 46 where the file has no live root, or the root, its tables or its stream
/// break their rules; 47 where an operation isn't ready where it stands or fails a check, or the
/// operations would take more than 2^30 bytes as single records. 1 may stand in place of any of
/// these where a growth of memory was refused. A refusal hands the disk back.
///
/// One sync, one `size`, one read of the two slots and one of each page that the live root reaches,
/// and what `Replica::from_list` takes for the operations.
pub fn open<D: Disk>(alloc: Global, disk: D) -> Result<Opened<D>, OpenFault<D>>
    // The replica is that of the file's image, as it is right after opening.
    ensures image { D.tells disk → IfOk result (λ it. IsImage (D.content disk) it.replica.replica
        (version_of it.store.current.body) it.replica.list) }
    ensures replica { IfOk result
        (λ it. it.replica ≡ opened_with it.replica.replica it.replica.list) }
    // The store is of the file's live root, and a crash leaves that file.
    ensures loaded { IfOk result (λ it. IsLoaded D.DiskFacts disk it.store
        it.replica.replica it.replica.list) }
    ensures fault { D.tells disk → IfErr result (λ fault. IsFault fault.cause (D.content disk)) }
    // It writes nothing, and tells a sync that failed from a read that did.
    ensures looks { IfOk result (λ it. IsLookedAt D.DiskFacts 0 1 disk it.store.disk) }
    ensures looks_refused { IfErr result (λ fault. HandsBack D.DiskFacts
        (failures_of fault.cause) (is_of_sync fault.cause) disk fault.disk) }
{
    match Store::load(alloc, disk) {
        Ok(
            Loaded {
                store,
                replica,
                ops,
            },
        ) => match Replica::from_list(alloc, replica, ops) {
            Ok(replica) => Ok(Opened { replica, store }),
            Err(refusal) => Err(OpenFault {
                cause: cause_of(refusal),
                disk: store.into_disk(),
            }),
        },
        Err(fault) => Err(OpenFault {
            cause: OpenError::Load(fault.cause),
            disk: fault.disk,
        }),
    }
}

/// What it means for an opening that a list isn't taken over.
fn cause_of(refusal: Refusal) -> OpenError
    ensures memory { refusal ≡ Refusal.Memory → result ≡ OpenError.Load LoadMemory }
    ensures other { refusal ≢ Refusal.Memory → result ≡ OpenError.BadOperation }
{
    if refusal == Refusal::Memory {
        OpenError::Load(group_commit::OpenError::Memory)
    } else {
        OpenError::BadOperation
    }
}
