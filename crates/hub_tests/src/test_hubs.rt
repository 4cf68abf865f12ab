//! Hubs for the tests, and what the tests do with them. Where something is missing there is no
//! value, and no text of a failure: what a test holds is dropped at each way out.
use disk_trait::{Disk, FaultDisk, MemDisk};
use group_commit::{Phase, Store};
use locked_replica::{Hub, HubRefusal};
use op_ids::{ReplicaId, Token};
use op_model::{Action, Change, Edit, EditText};
use std::alloc::Global;
use std::num::NonZeroU32;

/// A hub over a disk in memory, of whose device calls one may fail.
pub(crate) type Failing = Hub<FaultDisk<MemDisk>>;

/// The place of the device call that fails where none does.
pub(crate) const NEVER: u64 = u64::MAX;

/// What stands for a number where a commit has no end.
const NO_END: usize = 255;

/// The replica whose last byte is this.
pub(crate) fn replica(last: u8) -> Option<ReplicaId> {
    ReplicaId::read([0, 0, 0, 0, 0, 0, 0x40, 0, 0x80, 0, 0, 0, 0, 0, 0, last])
}

/// A disk with the store of a new replica, for a file of `room` bytes and `calls` calls.
pub(crate) fn new_disk(alloc: Global, last: u8, room: usize, calls: usize) -> Option<MemDisk> {
    let disk = MemDisk::new(alloc, room, calls).ok()?;
    match Store::init(alloc, disk, replica(last)?) {
        Ok(store) => Some(store.into_disk()),
        Err(_) => None,
    }
}

/// A disk with the store of a new replica, for a few small commits, of whose calls the n-th fails.
pub(crate) fn failing_disk(alloc: Global, last: u8, n: u64) -> Option<FaultDisk<MemDisk>> {
    let disk = new_disk(alloc, last, 65_536, 1_024)?;
    Some(FaultDisk::new(disk, n))
}

/// The hub of a disk. It is boxed, so that a test which returns early drops a box: that a hub is
/// dropped is then proved once, and not at each return.
pub(crate) fn open<D: Disk + Drop>(alloc: Global, disk: D) -> Option<Box<Hub<D>>> {
    match Hub::open(alloc, disk) {
        Ok(hub) => Box::new(alloc, hub).ok(),
        Err(_) => None,
    }
}

/// The hub of its file, opened anew.
pub(crate) fn reopened(alloc: Global, hub: Box<Failing>) -> Option<Box<Failing>> {
    match Box::into_inner(hub).reopen(alloc) {
        Ok(hub) => Box::new(alloc, hub).ok(),
        Err(_) => None,
    }
}

/// The insert of a character into document 1, so many times.
pub(crate) fn insert(alloc: Global, at: u32, value: char, count: usize) -> Option<Action> {
    insert_under(alloc, None, at, value, count)
}

/// The same under a token, if there is one.
pub(crate) fn insert_under(
    alloc: Global,
    token: Option<Token>,
    at: u32,
    value: char,
    count: usize,
) -> Option<Action> {
    let text = vec![in alloc; value; count].ok()?;
    let text = EditText::new(text)?;
    let edit = Edit {
        doc: 1,
        rev: None,
        token,
        change: Change::Insert { at, text },
    };
    Some(Action::one(alloc, edit))
}

/// Three edits that are made one after the other, each of one operation: "a", then "ab", then "b".
pub(crate) fn edit_of(alloc: Global, number: usize) -> Option<Action> {
    match number {
        0 => insert(alloc, 0, 'a', 1),
        1 => insert(alloc, 1, 'b', 1),
        _ => {
            let edit = Edit {
                doc: 1,
                rev: None,
                token: None,
                change: Change::Delete {
                    at: 0,
                    count: NonZeroU32::MIN,
                },
            };
            Some(Action::one(alloc, edit))
        }
    }
}

/// The number of the refusal, or 0.
pub(crate) fn number_of<T: Drop>(outcome: Result<T, HubRefusal>) -> usize {
    match outcome {
        Ok(_) => 0,
        Err(refusal) => refusal.number() as usize,
    }
}

/// Makes the device calls of a commit: the number of the refusal, or 0.
pub(crate) fn make_calls<D: Disk>(hub: &mut Hub<D>) -> usize {
    for _ in 0..1_000 {
        match hub.device_step() {
            Ok(Phase::Sync3) => return 0,
            Ok(_) => {}
            Err(refusal) => return refusal.number() as usize,
        }
    }
    NO_END
}

/// Commits all that a hub has, where something isn't settled: the number of the refusal, or 0.
pub(crate) fn commit<D: Disk>(hub: &mut Hub<D>) -> usize {
    match hub.begin() {
        Ok(Some(_)) => {}
        Ok(None) => return 0,
        Err(refusal) => return refusal.number() as usize,
    }
    match make_calls(hub) {
        0 => number_of(hub.settle()),
        number => number,
    }
}
