//! The opening of a file.
ghost use Rattle.std.specs.Prelude.{IfOk, IfErr};
ghost use Rattle.group_commit.specs.Loading.{IsFirstFault, failures_of, is_of_sync};
ghost use Rattle.group_commit.specs.Opening.{IsLoaded, IsLookedAt, HandsBack};

use crate::load_image::sync_and_read;
use crate::open_fault::OpenFault;
use crate::phase::Phase;
use crate::store::Store;
use crate::stream_tail::StreamTail;
use disk_trait::Disk;
use op_ids::ReplicaId;
use run_list::RunList;
use std::alloc::Global;

/// A file that was opened: its store, the replica that it belongs to, and its operations.
#[derive(Drop)]
pub struct Loaded<D: Disk> {
    pub store: Store<D>,
    pub replica: ReplicaId,
    pub ops: RunList,
}

impl<D: Disk> Store<D> {
    /// Opens the file of a disk: a sync, and then reads alone.
    ///
    /// Refuses with the first of these that it meets: 52 where the sync failed, and 50 where a
    /// read did; 42 where the file has fewer than 8,192 bytes or no gate is open; 43 where both
    /// are open with equal versions, or the live slot holds no root body, or a table page isn't
    /// whole in the file; 45 where the table pages break their rules or a data page isn't whole;
    /// 46 where the rest of the last data page isn't zero or the stream doesn't spell that number
    /// of operations in the root's format; 47 where these would take more than 2^30 bytes as
    /// single records. 1 may stand in place of any of these where a growth of memory was refused.
    /// A refusal hands the disk back.
    ///
    /// One sync, one `size`, one read of the two slots and one of each page that the live root
    /// reaches, up to a refusal. The stream is read in parts of 64 pages (256 KiB), and the
    /// operations of each are listed before the next one is read. So beside the list, in which a
    /// typed character takes four bytes and a new token twenty, memory holds one part, twice, and
    /// an unfinished record of fewer than 1,511 bytes. The store itself holds the stream's bytes
    /// behind the full pages, fewer than 4,096, and the pages' numbers, four bytes each. These are
    /// sorted, to see that none is there twice. Of a file of the first format it has the records of
    /// the operations, with runs, until its first commit: a pass over the operations makes them.
    pub fn load(alloc: Global, mut disk: D) -> Result<Loaded<D>, OpenFault<D>>
        // The store is of the file's live root, and a crash leaves that file.
        ensures loaded { IfOk result
            (λ it. IsLoaded D.DiskFacts disk it.store it.replica it.ops) }
        ensures fault { D.tells disk
            → IfErr result (λ fault. IsFirstFault fault.cause (D.content disk)) }
        // It writes nothing, and tells a sync that failed from a read that did.
        ensures looks { IfOk result (λ it. IsLookedAt D.DiskFacts 0 1 disk it.store.disk) }
        ensures looks_refused { IfErr result (λ fault. HandsBack D.DiskFacts
            (failures_of fault.cause) (is_of_sync fault.cause) disk fault.disk) }
    {
        match sync_and_read(alloc, &mut disk) {
            Ok(image) => {
                let replica = image.current.replica();
                let store = Store {
                    disk,
                    phase: Phase::Idle,
                    current: image.current,
                    next: image.next,
                    pages: image.pages,
                    kept: 0,
                    new_data: 0,
                    stream: image.stream,
                    next_stream: StreamTail::new(alloc),
                    anew: image.anew,
                    roots: image.roots,
                    failed: false,
                    numbers: Vec::new(alloc),
                    fresh: Vec::new(alloc),
                };
                Ok(Loaded {
                    store,
                    replica,
                    ops: image.ops,
                })
            }
            Err(cause) => Err(OpenFault { cause, disk }),
        }
    }
}
