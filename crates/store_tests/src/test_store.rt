//! What the tests share of stores: their calls, and their file.
use crate::test_files::bytes_of;
use change_codec::{Format, put_ops, take_ops};
use disk_trait::{Disk, MemDisk};
use group_commit::{Loaded, Phase, Store, StoreError};
use op_ids::ReplicaId;
use op_model::Op;
use run_list::RunList;
use std::alloc::Global;
use std::test::Fail;

/// The one replica of these tests.
pub(crate) fn replica() -> Result<ReplicaId, Fail> {
    let name = [0, 0, 0, 0, 0, 0, 0x40, 0, 0x80, 0, 0, 0, 0, 0, 0, 1];
    Ok(ReplicaId::read(name).ok_or("nil")?)
}

/// A new store on this disk.
pub(crate) fn store_on<D: Disk + Drop>(alloc: Global, disk: D) -> Result<Box<Store<D>>, Fail> {
    let replica = replica()?;
    match Store::init(alloc, disk, replica) {
        Ok(store) => Ok(Box::new(alloc, store)?),
        Err(_) => Err("refused".into()),
    }
}

/// What is loaded of this disk's file, or the number of the refusal.
pub(crate) fn load<D: Disk + Drop>(alloc: Global, disk: D) -> Result<Loaded<D>, u8> {
    match Store::load(alloc, disk) {
        Ok(loaded) => Ok(loaded),
        Err(fault) => Err(fault.cause.number()),
    }
}

/// The store of this disk's file.
pub(crate) fn opened<D: Disk + Drop>(alloc: Global, disk: D) -> Result<Box<Store<D>>, Fail> {
    match load(alloc, disk) {
        Ok(loaded) => Ok(Box::new(alloc, loaded.store)?),
        Err(number) => Err(number.into()),
    }
}

/// The operations of these records.
pub(crate) fn ops(alloc: Global, records: &str) -> Result<Vec<Op>, Fail> {
    let bytes = bytes_of(alloc, records)?;
    Ok(take_ops(alloc, Format::First, &bytes)?)
}

/// Begins a commit of these operations.
pub(crate) fn begin<D: Disk>(
    store: &mut Store<D>,
    alloc: Global,
    ops: &[Op],
) -> Result<Option<u64>, StoreError> {
    let mut records = Vec::new(alloc);
    put_ops(ops, &mut records)?;
    store.begin_records(&records, ops.len() as u64)
}

pub(crate) fn step<D: Disk>(store: &mut Store<D>) -> Result<Phase, StoreError> {
    store.step()
}

/// Makes all calls of the commit under way, and gives how many writes and syncs these are.
pub(crate) fn finish<D: Disk>(store: &mut Store<D>) -> Result<(usize, usize), StoreError> {
    let mut writes: usize = 0;
    let mut syncs: usize = 0;
    for _ in 0..4096 {
        match step(store)? {
            Phase::Idle => return Ok((writes, syncs)),
            Phase::Sync1 | Phase::Sync2 | Phase::Sync3 => syncs = syncs.saturating_add(1),
            _ => writes = writes.saturating_add(1),
        }
    }
    Ok((writes, syncs))
}

/// The bytes of a disk's file.
pub(crate) fn read<D: Disk>(alloc: Global, disk: &mut D) -> Result<Vec<u8>, Fail> {
    let size = disk.size()?;
    let mut file = Vec::from_elem(alloc, 0, usize::try_from(size)?)?;
    disk.read_at(0, &mut file)?;
    Ok(file)
}

/// Writes a file, page by page.
fn fill<D: Disk>(disk: &mut D, file: &[u8]) -> Result<(), Fail> {
    let mut at: u64 = 0;
    for page in file.chunks(4096) {
        disk.write_at(at, page)?;
        at = at.saturating_add(4096);
    }
    disk.sync()?;
    Ok(())
}

/// A disk for so many calls, with the file that words say. Its writes and a sync are calls of it.
pub(crate) fn disk_of(alloc: Global, calls: usize, words: &str) -> Result<Box<MemDisk>, Fail> {
    let file = bytes_of(alloc, words)?;
    let mut disk = Box::new(alloc, MemDisk::new(alloc, 8 * 4096, calls)?)?;
    fill(&mut *disk, &file)?;
    Ok(disk)
}

/// The replica and the operations of a file. They are taken out here, since nothing else is held
/// then that an early return would have to drop.
fn loaded(alloc: Global, disk: MemDisk) -> Result<(ReplicaId, RunList), Fail> {
    match load(alloc, disk) {
        Ok(loaded) => Ok((loaded.replica, loaded.ops)),
        Err(number) => Err(number.into()),
    }
}

/// Whether these operations are so many, and have these records.
fn have_records(alloc: Global, ops: &RunList, count: usize, records: &str) -> Result<bool, Fail> {
    let mut found = Vec::new(alloc);
    put_ops(&ops.as_slice().copy_from(alloc, 0)?, &mut found)?;
    let expected = bytes_of(alloc, records)?;
    Ok(ops.len() == count && found == expected)
}

/// Whether a file is opened with these records, and of the replica.
pub(crate) fn has_records(
    alloc: Global,
    disk: MemDisk,
    count: usize,
    records: &str,
) -> Result<bool, Fail> {
    let (owner, ops) = loaded(alloc, disk)?;
    let is_owner = owner.bytes() == replica()?.bytes();
    Ok(is_owner && have_records(alloc, &ops, count, records)?)
}
