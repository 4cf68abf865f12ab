//! Stores that are opened, whole and broken.
use disk_trait::MemDisk;
use group_commit::Store;
use op_ids::ReplicaId;
use recovery::open;
use std::alloc::Global;
use std::test::Fail;

/// The replica ending in 01.
fn first_replica() -> Result<ReplicaId, Fail> {
    let bytes = [0, 0, 0, 0, 0, 0, 0x40, 0, 0x80, 0, 0, 0, 0, 0, 0, 1];
    Ok(ReplicaId::read(bytes).ok_or("nil")?)
}

/// How many operations a disk opens with, or the number of the refusal.
fn opened(alloc: Global, disk: MemDisk) -> Result<usize, u8> {
    match open(alloc, disk) {
        Ok(it) => {
            let replica = it.replica;
            Ok(replica.list().len())
        }
        Err(fault) => Err(fault.cause.number()),
    }
}

#[test]
fn a_new_store_opens_empty(rt: HostRuntime) -> Result<(), Fail> {
    let alloc = rt.alloc();
    let disk = MemDisk::new(alloc, 16_384, 100)?;
    let disk = match Store::init(alloc, disk, first_replica()?) {
        Ok(store) => store.into_disk(),
        Err(_) => return Err("init")?,
    };
    assert!(rt; opened(alloc, disk) == Ok(0));
    Ok(())
}

#[test]
fn an_empty_file_has_no_root(rt: HostRuntime) -> Result<(), Fail> {
    let alloc = rt.alloc();
    let disk = MemDisk::new(alloc, 16_384, 100)?;
    assert!(rt; opened(alloc, disk) == Err(42));
    Ok(())
}
