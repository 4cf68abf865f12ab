//! A disk of which nothing is known, and which answers each read and write with 53.
ghost use Rattle.std.specs.Prelude.{[]};

use crate::test_store::{load, replica};
use disk_trait::{Disk, DiskError, DiskFacts};
use group_commit::Store;
use op_ids::ReplicaId;
use std::alloc::Global;
use std::test::Fail;

#[derive(Drop)]
struct Mute {
    size: u64,
}

impl DiskFacts for Mute {
    ghost tells = { λ _. ⊥ };

    ghost content = { λ _. [] };

    ghost survives = { λ _ _. ⊥ };

    ghost time = { λ _. 0 };

    ghost left_since = { λ _ _ _. ⊥ };

    ghost writes = { λ _. 0 };

    ghost syncs = { λ _. 0 };

    ghost failures = { λ _. 0 };
}

impl Disk for Mute {
    fn size(&mut self) -> Result<u64, DiskError> {
        Ok(self.size)
    }

    fn read_at(&mut self, _pos: u64, _bytes: &mut [u8]) -> Result<(), DiskError> {
        Err(DiskError::PastEnd)
    }

    fn write_at(&mut self, _pos: u64, _bytes: &[u8]) -> Result<(), DiskError> {
        Err(DiskError::PastEnd)
    }

    fn sync(&mut self) -> Result<(), DiskError> {
        Ok(())
    }

    ghost lawful = { λ _ never. absurd never };
}

/// The number with which its file isn't opened, or 0.
fn opening(alloc: Global) -> u8 {
    match load(alloc, Mute { size: 8192 }) {
        Ok(_) => 0,
        Err(number) => number,
    }
}

/// And that with which none is made on it.
fn making(alloc: Global, replica: ReplicaId) -> u8 {
    match Store::init(alloc, Mute { size: 0 }, replica) {
        Ok(_) => 0,
        Err(fault) => fault.cause.number(),
    }
}

#[test]
fn what_a_mute_disk_refuses_is_a_failure_of_the_device(rt: HostRuntime) -> Result<(), Fail> {
    let replica = replica()?;
    assert_eq!(rt; opening(rt.alloc()), 50);
    assert_eq!(rt; making(rt.alloc(), replica), 51);
    Ok(())
}
