//! Root slots: which one is live, and what is refused.
ghost use Rattle.std.specs.Prelude.{◌≡◌, ◌≤◌, length};

use crate::body_tests::body_of;
use crate::test_files::bytes_of;
use crate::test_rows::{Case, World, cut_number, named, nothing, play, told};
use crate::test_store::disk_of;
use disk_trait::{Disk, MemDisk};
use root_slots::Roots;
use std::alloc::Global;
use std::test::Fail;

/// What the slots of a disk say: the version of the live root, its slot, whether the other slot is
/// open, and the size of the file; or the number of the refusal.
fn live<D: Disk>(alloc: Global, disk: &mut D) -> Result<(u64, u64, bool, u64), u8> {
    match Roots::load(alloc, disk) {
        Ok(found) => Ok((
            found.root.version(),
            found.roots.slot(),
            found.roots.is_stale_open(),
            found.file_size,
        )),
        Err(error) => Err(error.number()),
    }
}

/// The same as text.
fn load(alloc: Global, disk: &mut MemDisk) -> Result<String, Fail> {
    match live(alloc, disk) {
        Ok((version, slot, open, size)) => {
            Ok(format!(in alloc; "{version} in {slot} {open} {size}")?)
        }
        Err(number) => Ok(format!(in alloc; "{number}")?),
    }
}

/// Puts a body into the stale slot and opens it. Whether the device did all of it.
fn put_root<D: Disk>(roots: &mut Roots, disk: &mut D, body: &[u8]) -> bool
    requires whole { D.tells disk.old → 8192 ≤ length (D.content disk.old) }
    requires long { length body.now ≡ 4088 }
{
    if roots.put_body(disk, body).is_err() {
        return false;
    }
    if roots.open_gate(disk).is_err() {
        return false;
    }
    roots.change_places();
    true
}

/// Puts a body into the stale slot of a disk's file. Whether the device did all of it.
fn commit<D: Disk>(alloc: Global, disk: &mut D, body: &[u8]) -> bool
    requires long { length body.now ≡ 4088 }
{
    match Roots::load(alloc, disk) {
        Ok(mut found) => put_root(&mut found.roots, disk, body),
        Err(_) => false,
    }
}

/// The same of a body that words say.
fn commit_body(alloc: Global, disk: &mut MemDisk, words: &str) -> Result<bool, Fail> {
    let body = body_of(alloc, words)?;
    if body.len() != 4088 {
        return Err("length".into());
    }
    Ok(commit(alloc, disk, &body))
}

/// Closes the stale slot of a disk's file where it is open. Whether it was, and the device did it.
fn close<D: Disk>(alloc: Global, disk: &mut D) -> bool {
    match Roots::load(alloc, disk) {
        Ok(found) => {
            if !found.roots.is_stale_open() {
                return false;
            }
            found.roots.close_stale(disk).is_ok()
        }
        Err(_) => false,
    }
}

/// Whether these bytes stand in the file at this place.
fn has<D: Disk>(disk: &mut D, at: u64, bytes: &[u8], found: &mut Vec<u8>) -> Result<bool, Fail> {
    found.resize(bytes.len(), 0)?;
    disk.read_at(at, found)?;
    Ok(found.as_slice() == bytes)
}

/// Whether the bytes that words say stand at the place with which the words begin.
fn stand(alloc: Global, disk: &mut MemDisk, words: &str) -> Result<bool, Fail> {
    let (at, words) = cut_number(words)?;
    let bytes = if at == 0 {
        bytes_of(alloc, words)?
    } else {
        body_of(alloc, words)?
    };
    has(disk, at, &bytes, &mut Vec::new(alloc))
}

/// A disk with two slots.
#[derive(Drop)]
struct Slots {
    disk: Box<MemDisk>,
}

/// Puts another disk there: for so many calls, three of which it takes to write its file.
fn renew(alloc: Global, slots: &mut Slots, words: &str) -> Result<String, Fail> {
    let (calls, file) = cut_number(words)?;
    slots.disk = disk_of(alloc, usize::try_from(calls)?, file)?;
    nothing(alloc)
}

impl World for Slots {
    fn answer(&mut self, alloc: Global, command: &str, words: &str) -> Result<String, Fail> {
        match command {
            "disk" => renew(alloc, self, words),
            "load" => load(alloc, &mut self.disk),
            "commit" => told(alloc, commit_body(alloc, &mut self.disk, words)),
            "close" => told(alloc, Ok(close(alloc, &mut *self.disk))),
            "bytes" => told(alloc, stand(alloc, &mut self.disk, words)),
            _ => Err("no such command".into()),
        }
    }
}

/// Plays rows, of which the first puts a disk there.
fn plays(rt: &HostRuntime, rows: &str) -> Result<(), Fail> {
    let disk = disk_of(rt.alloc(), 1, "")?;
    play(rt.alloc(), &mut Slots { disk }, rows)
}

static CASES: [Case; 4] = [
    (
        "the live slot is loaded",
        "disk 64 OPEN MADE_BODY | CLOSED |
        load : 1 in 0 false 8192
        disk 64 OPEN MADE_BODY | OPEN FIRST_BODY |
        load : 2 in 1 true 8192
        disk 64 OPEN SECOND_BODY | OPEN FIRST_BODY |
        load : 3 in 0 true 8192
        disk 64 0700000000000000 SECOND_BODY | OPEN FIRST_BODY |
        load : 2 in 1 false 8192",
    ),
    // None is open, the second slot isn't there; two open ones with equal versions, a live one
    // without a root body; the device fails in telling the size, and in the read.
    (
        "broken slots are refused",
        "disk 64 CLOSED MADE_BODY | 0200000000000000 FIRST_BODY |
        load : 42
        disk 64 OPEN MADE_BODY |
        load : 42
        disk 64 OPEN FIRST_BODY | OPEN FIRST_BODY |
        load : 43
        disk 64 CLOSED FIRST_BODY | OPEN |
        load : 43
        disk 3 OPEN MADE_BODY | CLOSED |
        load : 50
        disk 4 OPEN MADE_BODY | CLOSED |
        load : 50",
    ),
    (
        "a root is put and the other one closed",
        "disk 64 OPEN MADE_BODY | CLOSED |
        close : false
        commit FIRST_BODY : true
        bytes 4104 FIRST_BODY : true
        load : 2 in 1 true 8192
        close : true
        bytes 0 0000 : true
        load : 2 in 1 false 8192",
    ),
    // Five calls make the file and load it; the sixth puts the body, the seventh opens the gate.
    (
        "a failed write is told",
        "disk 5 OPEN MADE_BODY | CLOSED |
        commit FIRST_BODY : false
        disk 6 OPEN MADE_BODY | CLOSED |
        commit FIRST_BODY : false
        disk 7 OPEN MADE_BODY | CLOSED |
        commit FIRST_BODY : true",
    ),
];

#[test]
fn slots_are_loaded_and_put(rt: HostRuntime) -> Result<(), Fail> {
    for (name, rows) in &CASES {
        named(&rt, name, plays(&rt, rows))?;
    }
    Ok(())
}
