//! A store whose commits rows tell of, and the file that it leaves.
use crate::test_files::bytes_of;
use crate::test_inserts::{filling, inserts};
use crate::test_rows::{World, nothing, play, told, two_of};
use crate::test_store::{begin, disk_of, finish, opened, ops, read, step, store_on};
use disk_trait::{Disk, FaultDisk, MemDisk};
use group_commit::Store;
use op_model::Op;
use page_file::take_numbers;
use std::alloc::Global;
use std::test::Fail;

/// A store, until it is stopped, and then its file.
#[derive(Drop)]
struct Bench {
    store: Option<Box<Store<FaultDisk<MemDisk>>>>,
    file: Vec<u8>,
}

/// Makes a store on a disk with room for so many pages. The n-th call of the disk fails, none where
/// that is 0.
fn make(alloc: Global, bench: &mut Bench, words: &str) -> Result<String, Fail> {
    let (pages, n) = two_of(words)?;
    let disk = MemDisk::new(alloc, pages as usize * 4096, 4096)?;
    let disk = FaultDisk::new(disk, u64::from(n));
    bench.store = Some(store_on(alloc, disk)?);
    nothing(alloc)
}

/// Opens the file that words say.
fn open(alloc: Global, bench: &mut Bench, words: &str) -> Result<String, Fail> {
    let disk = FaultDisk::new(Box::into_inner(disk_of(alloc, 64, words)?), 0);
    bench.store = Some(opened(alloc, disk)?);
    nothing(alloc)
}

/// Stops the store, and reads its file.
fn stop(alloc: Global, bench: &mut Bench) -> Result<String, Fail> {
    let store = bench.store.take().ok_or("no store")?;
    let mut disk = Box::into_inner(store).into_disk();
    bench.file = read(alloc, &mut disk)?;
    nothing(alloc)
}

/// Begins a commit of these operations. How many there are to be then, or the refusal.
fn begun<D: Disk>(alloc: Global, store: &mut Store<D>, ops: &[Op]) -> Result<String, Fail> {
    match begin(store, alloc, ops) {
        Ok(Some(count)) => Ok(format!(in alloc; "{count}")?),
        Ok(None) => Ok(String::from_str(alloc, "none")?),
        Err(error) => Ok(format!(in alloc; "{error}")?),
    }
}

/// Makes all calls of the commit. How many these are, or the failure.
fn finished<D: Disk>(alloc: Global, store: &mut Store<D>) -> Result<String, Fail> {
    match finish(store) {
        Ok((writes, syncs)) => Ok(format!(in alloc; "{writes} writes, {syncs} syncs")?),
        Err(error) => Ok(format!(in alloc; "{error}")?),
    }
}

/// Makes one call. Nothing, or the failure.
fn stepped<D: Disk>(alloc: Global, store: &mut Store<D>) -> Result<String, Fail> {
    match step(store) {
        Ok(_) => nothing(alloc),
        Err(error) => Ok(format!(in alloc; "{error}")?),
    }
}

/// How many operations are committed.
fn count<D: Disk>(alloc: Global, store: &Store<D>) -> Result<String, Fail> {
    let count = store.committed();
    Ok(format!(in alloc; "{count}")?)
}

/// What is asked of a store.
fn ask<D: Disk>(
    alloc: Global,
    store: &mut Store<D>,
    command: &str,
    words: &str,
) -> Result<String, Fail> {
    match command {
        "begin" => begun(alloc, store, &ops(alloc, words)?),
        "inserts" => begun(alloc, store, &inserts(alloc, words)?),
        "filling" => begun(alloc, store, &filling(alloc)?),
        "finish" => finished(alloc, store),
        "step" => stepped(alloc, store),
        "count" => count(alloc, store),
        _ => Err("no such command".into()),
    }
}

/// The numbers in a file from a byte on, as many as are asked for.
fn numbers(alloc: Global, file: &[u8], words: &str) -> Result<String, Fail> {
    let (at, count) = two_of(words)?;
    let bytes = file.get(at as usize..).ok_or("no such byte")?;
    if bytes.len() / 4 < count as usize {
        return Err("no such number".into());
    }
    let found = take_numbers(alloc, bytes, count as usize)?;
    Ok(format!(in alloc; "{found:?}")?)
}

/// Whether a file is the one that words say.
fn is_file(alloc: Global, file: &[u8], words: &str) -> Result<bool, Fail> {
    Ok(bytes_of(alloc, words)?.as_slice() == file)
}

impl World for Bench {
    fn answer(&mut self, alloc: Global, command: &str, words: &str) -> Result<String, Fail> {
        match command {
            "new" => make(alloc, self, words),
            "open" => open(alloc, self, words),
            "stop" => stop(alloc, self),
            "size" => size(alloc, &self.file),
            "numbers" => numbers(alloc, &self.file, words),
            "is" => told(alloc, is_file(alloc, &self.file, words)),
            _ => match &mut self.store {
                Some(store) => ask(alloc, store, command, words),
                None => Err("no store".into()),
            },
        }
    }
}

/// The size of a file.
fn size(alloc: Global, file: &[u8]) -> Result<String, Fail> {
    let size = file.len();
    Ok(format!(in alloc; "{size}")?)
}

/// Plays rows, of which the first makes or opens a store.
pub(crate) fn plays(rt: &HostRuntime, rows: &str) -> Result<(), Fail> {
    let file = Vec::new(rt.alloc());
    play(rt.alloc(), &mut Bench { store: None, file }, rows)
}
