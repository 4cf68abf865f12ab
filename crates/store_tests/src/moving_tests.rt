//! Commits that write the whole list of a file of the first format anew.
use crate::test_store::{begin, disk_of, has_records, opened, ops, step};
use disk_trait::{Fate, MemDisk};
use group_commit::Store;
use std::alloc::Global;
use std::test::Fail;

/// The file of the first format with two inserts, "a" and "b".
const OLD: &str = "OLD_TWO | OLD_ONE | INSERT_A | 00000002 | BOTH | 00000004 |";

/// The store of that file, with a commit begun of an insert of "c".
fn moving(alloc: Global) -> Result<Box<Store<MemDisk>>, Fail> {
    let disk = disk_of(alloc, 64, OLD)?;
    let mut store = opened(alloc, Box::into_inner(disk))?;
    begin(&mut store, alloc, &ops(alloc, "INSERT_C")?)?;
    Ok(store)
}

/// The disk that a crash leaves of that commit after so many device calls.
fn stopped(alloc: Global, calls: usize, fate: Fate, grown: bool) -> Result<Box<MemDisk>, Fail> {
    let mut store = moving(alloc)?;
    for _ in 0..calls {
        step(&mut store)?;
    }
    let mut disk = Box::new(alloc, Box::into_inner(store).into_disk())?;
    disk.crash(fate, grown);
    Ok(disk)
}

/// Whether that disk opens with "ab", or with "abc" where the new root `is_live`.
fn opens_stopped(
    alloc: Global,
    calls: usize,
    fate: Fate,
    grown: bool,
    is_live: bool,
) -> Result<bool, Fail> {
    let disk = Box::into_inner(stopped(alloc, calls, fate, grown)?);
    if is_live {
        has_records(alloc, disk, 3, "ALL")
    } else {
        has_records(alloc, disk, 2, "BOTH")
    }
}

#[test]
fn a_stop_leaves_the_list_of_the_first_format_or_the_new_one(rt: HostRuntime) -> Result<(), Fail> {
    let fates = [
        Fate::Old,
        Fate::New,
        Fate::Fill(0),
        Fate::Fill(1),
        Fate::Fill(7),
        Fate::Fill(255),
    ];
    for calls in 0..9 {
        for fate in fates {
            let is_raised = matches!(fate, Fate::New | Fate::Fill(1));
            let is_live = calls == 8 || calls == 7 && is_raised;
            for grown in [false, true] {
                assert!(rt;
                    opens_stopped(rt.alloc(), calls, fate, grown, is_live)?,
                    "{calls} calls"
                );
            }
        }
    }
    Ok(())
}
