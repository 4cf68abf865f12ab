//! One end of a link between two hubs.
use crate::meeting_edits::change;
use crate::test_hubs::{Failing, NEVER, commit, new_disk, open, replica};
use causal_sync::{Heard, Link, Ops};
use disk_trait::FaultDisk;
use fixed_numbers::limits::MAX_TOLD;
use op_ids::Clock;
use op_model::{Action, Change, Edit};
use replica_core::Merged;
use std::alloc::Global;

/// The bytes of a disk and its calls, with room for all operations of a meeting.
const ROOM: usize = 2_648_576;

const CALLS: usize = 75_536;

/// The bytes that come at once.
const PIECE: usize = 1_460;

/// Who edits, and who is merged.
const SESSION: u64 = 1;

const OTHER: u64 = 2;

/// A hub, its end of a link, and what was said and heard over it.
#[derive(Drop)]
pub(crate) struct Peer {
    pub(crate) hub: Box<Failing>,
    link: Link,
    // The clock of the last HAVE that was said over this link.
    said: Option<Clock>,
    /// The operations that were heard and put after the list.
    pub(crate) merged: usize,
    /// The operations that were heard and there already.
    pub(crate) known: usize,
}

impl Peer {
    /// A new replica whose id ends in this byte.
    pub(crate) fn new(alloc: Global, last: u8) -> Option<Box<Peer>> {
        let disk = new_disk(alloc, last, ROOM, CALLS)?;
        let peer = Peer {
            hub: open(alloc, FaultDisk::new(disk, NEVER))?,
            link: Link::start(alloc, replica(last)?).ok()?,
            said: None,
            merged: 0,
            known: 0,
        };
        Box::new(alloc, peer).ok()
    }

    /// Changes document 1.
    fn edit(&mut self, alloc: Global, change: Change) -> Option<()> {
        let edit = Edit {
            doc: 1,
            rev: None,
            token: None,
            change,
        };
        self.hub.edit(SESSION, &Action::one(alloc, edit)).ok()?;
        Some(())
    }

    /// Makes changes from this number on, which put in this word.
    pub(crate) fn edit_all(
        &mut self,
        alloc: Global,
        word: &str,
        first: u32,
        count: u32,
    ) -> Option<()> {
        for number in first..first.saturating_add(count) {
            let long = self.hub.text(1).ok()?.as_slice().len();
            let long = u32::try_from(long).ok()?;
            self.edit(alloc, change(alloc, word, number, long)?)?;
        }
        Some(())
    }

    /// Settles all operations.
    pub(crate) fn settle(&mut self) -> Option<()> {
        match commit(&mut self.hub) {
            0 => Some(()),
            _ => None,
        }
    }

    /// Says what is due: the settled clock, where that isn't the one that was said last, and the
    /// first settled operations that the other end lacks, once that has said what it has.
    pub(crate) fn speak(&mut self) -> Option<()> {
        let clock = self.hub.have().ok()?;
        if self.said.as_ref() != Some(&clock) {
            self.link.say_have(&clock).ok()?;
            self.said = Some(clock);
        }
        if self.link.has_heard_have() {
            self.say_ops()?;
        }
        Some(())
    }

    /// Says the first settled operations that the other end lacks.
    fn say_ops(&mut self) -> Option<()> {
        let ops = self.hub.tell(self.link.base()).ok()?;
        if ops.is_empty() {
            return Some(());
        }
        if ops.len() > MAX_TOLD {
            return None;
        }
        self.link.say_ops(&ops).ok()
    }

    /// The bytes of all that was said.
    pub(crate) fn take_out(&mut self) -> Vec<u8> {
        self.link.take_out()
    }

    /// Takes bytes of the other end in pieces, and merges the operations that are heard.
    pub(crate) fn hear(&mut self, bytes: &[u8]) -> Option<()> {
        for piece in bytes.chunks(PIECE) {
            self.link.feed(piece).ok()?;
            self.hear_frames(piece.len())?;
        }
        Some(())
    }

    /// Takes the frames that wait, of which a piece of `most` bytes ends at most `most`.
    fn hear_frames(&mut self, most: usize) -> Option<()> {
        for _ in 0..most {
            match self.link.next() {
                Some(heard) => self.take_in(heard)?,
                None => break,
            }
        }
        Some(())
    }

    /// Merges the operations of a frame, if it has any.
    fn take_in(&mut self, heard: Heard) -> Option<()> {
        match heard {
            Heard::Ops(ops) => self.merge_all(ops),
            Heard::Have(_) | Heard::Hello(_) | Heard::Bye => Some(()),
        }
    }

    /// Merges the operations of a frame. None of them is early: they come in the order of a list.
    fn merge_all(&mut self, ops: Ops) -> Option<()> {
        let pieces = ops.into_vec();
        let alloc = *pieces.allocator();
        for piece in pieces {
            for op in piece.ops(alloc).ok()? {
                match self.hub.merge(OTHER, op).ok()? {
                    Merged::Applied => self.merged = self.merged.saturating_add(1),
                    Merged::Known => self.known = self.known.saturating_add(1),
                    Merged::Early => return None,
                }
            }
        }
        Some(())
    }

    /// Begins a new link. Gives how many bytes of an unfinished frame the old one had.
    pub(crate) fn begin_anew(&mut self, alloc: Global) -> Option<usize> {
        let held = self.link.held();
        self.link = Link::start(alloc, self.hub.replica()).ok()?;
        self.said = None;
        Some(held)
    }
}
