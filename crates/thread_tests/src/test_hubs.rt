//! What hubs that threads share are made of, and the edits of their tests.
ghost use Rattle.std.specs.Prelude.{◌≡◌, IfSome};
ghost use Rattle.hub_parts.specs.Opening.{IsOpened};

use disk_trait::MemDisk;
use group_commit::Store;
use hub_parts::{Parts, open};
use op_ids::ReplicaId;
use op_model::{Action, Change, Edit, EditText};
use pass_books::BookNames;
use shared_hub::{Named, Opened, Pass};
use std::alloc::Global;

/// The replica whose name ends in this byte.
pub fn replica(last: u8) -> Option<ReplicaId> {
    ReplicaId::read([0, 0, 0, 0, 0, 0, 0x40, 0, 0x80, 0, 0, 0, 0, 0, 0, last])
}

/// The insert of one character at the beginning of a document.
pub fn insert(alloc: Global, doc: u32) -> Option<Action> {
    let mut text = Vec::new(alloc);
    text.push('a').ok()?;
    let edit = Edit {
        doc,
        rev: None,
        token: None,
        change: Change::Insert {
            at: 0,
            text: EditText::new(text)?,
        },
    };
    Some(Action::one(alloc, edit))
}

/// The parts of a new replica's hub, whose name ends in 1.
pub fn parts(alloc: Global) -> Option<Parts<MemDisk>>
    ensures { IfSome result (λ it. IsOpened it.locked it.flusher) }
{
    let disk = MemDisk::new(alloc, 1_048_576, 65_536).ok()?;
    let store = Store::init(alloc, disk, replica(1)?).ok()?;
    let Ok(parts) = open(alloc, store.into_disk()) else {
        return None;
    };
    Some(parts)
}

/// A new hub under these books, in a box: what the proof of a test costs is each way out past a hub,
/// and each place that it is moved to.
pub fn share<J: BookNames>(alloc: Global, opened: Opened) -> Option<Box<Named<J, MemDisk>>>
    requires { opened ≡ J.names }
{
    let parts = parts(alloc)?;
    match opened.share::<J, MemDisk>(alloc, parts) {
        Ok(hub) => Box::new(alloc, hub).ok(),
        Err(_) => None,
    }
}

/// One of a hub's passes, which it hasn't any more.
pub fn take_pass<J: BookNames>(hub: &mut Named<J, MemDisk>) -> Option<Pass<J>> {
    hub.passes.pop()
}
