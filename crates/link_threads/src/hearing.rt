//! The thread of a link that hears.

use crate::link_end::{LinkEnd, Said};
use crate::link_host::LinkHost;
use crate::link_log::LinkLog;
use crate::over::Over;
use crate::patience::Patience;
use causal_sync::{LinkError, Ops};
use fixed_numbers::refusals::{BUSY, FAILED, MEMORY, STEPS, STOPPING};
use op_ids::ReplicaId;
use op_model::Op;
use pass_books::BookNames;
use replica_core::Merged;
use rtrb::Producer;
use shared_hub::{Checkpoint, Pass, Point, Shared, SharedRefusal};
use std::alloc::Global;
use std::io::{ErrorKind, Read};
use std::rt::Clock;
use std::sync::Wait;
use std::thread;
use std::time::Duration;

/// How many bytes are read at once.
const PIECE: usize = 4_096;

/// After how many HAVEs without operations between them there is a pause. A daemon says one for a
/// commit, and so many take it far longer than the pause.
const MANY_HAVES: u32 = 64;

/// The pause after them, in milliseconds.
const PAUSE: u64 = 3;

/// What became of operations that were heard.
#[derive(Clone, Copy, Debug, PartialEq, Eq)]
enum Merging {
    /// They are in the list, or are asked for again at once: the link goes on.
    GoesOn,
    /// One can't be taken for now, when out of memory (1), or since too much waits for a commit
    /// (8).
    CantTake,
    /// One is refused for good: nothing more is heard, and the link ends once all that is due is
    /// told.
    Refused,
    /// None is taken before the file is opened again: the link ends.
    Ends,
}

/// What the thread of a link that hears works with.
#[derive(Drop)]
pub(crate) struct Hearing<'a, R: Wait + Clock, J: BookNames, C: Checkpoint> {
    pub rt: &'a R,
    pub shared: &'a Shared<J>,
    pub end: &'a LinkEnd,
    pub checkpoint: &'a C,
    pub pass: &'a mut Pass<J>,
    /// Where a note goes for a record that makes a HAVE due.
    pub notes: Producer<u8>,
    /// Whether the thread that tells is to be woken: something may be due.
    pub is_due: bool,
    /// How many HAVEs were heard since the last operations, or the last pause.
    pub haves: u32,
    /// The most operations of this replica that a HAVE counted.
    pub counted: u64,
    /// Whether an operation was applied.
    pub has_taken: bool,
    /// The pauses while none can be.
    pub patience: Patience,
    /// Whether an operation found no steps left (10), so that none can be taken any more.
    pub is_out_of_steps: bool,
    /// What ended the link, once it has.
    pub over: Over,
    pub log: LinkLog<'a>,
}

impl<'a, R: Wait + Clock, J: BookNames, C: Checkpoint> Hearing<'a, R, J, C> {
    /// One that has heard nothing so far.
    pub(crate) fn new(
        host: &'a LinkHost<'a, R, J, C>,
        end: &'a LinkEnd,
        pass: &'a mut Pass<J>,
        notes: Producer<u8>,
    ) -> Hearing<'a, R, J, C> {
        Hearing {
            rt: host.rt,
            shared: host.shared,
            end,
            checkpoint: host.checkpoint,
            pass,
            notes,
            is_due: false,
            haves: 0,
            counted: 0,
            has_taken: false,
            patience: Patience::new(),
            is_out_of_steps: false,
            over: Over::Closed,
            log: host.log,
        }
    }

    /// Hears what the other end says, and merges its operations, until the stream ends, breaks its
    /// rules or says BYE; an operation is refused for good, for want of steps (10) or since the
    /// device failed (9); or the other end has operations of this replica that aren't here.
    pub(crate) fn run<S: Read>(&mut self, alloc: Global, own: ReplicaId, stream: &mut S) {
        let mut piece = [0; PIECE];
        for _ in self.rt.forever() {
            let count = match stream.read(&mut piece) {
                Ok(0) => return,
                Ok(count) => count,
                Err(error) if error.kind() == ErrorKind::Interrupted => continue,
                Err(_) => return,
            };
            let fed = self.end.feed(self.rt, &piece[..count]);
            if !self.hear_frames() {
                return;
            }
            if let Err(error) = fed {
                self.over = Over::Broken(error);
                let is_hello = error == LinkError::BadHello;
                if is_hello && LinkEnd::is_own_hello(alloc, own, &piece[..count]) {
                    self.log.greeted_by_copy(self.rt, own);
                }
                return;
            }
            self.note_peer();
            self.wake_telling();
        }
    }

    /// Notes what the other end has said that it has, once for all frames of a piece.
    fn note_peer(&self) {
        if let Some((replica, its)) = self.end.take_heard(self.rt) {
            self.shared
                .note_peer(self.rt, self.pass.number(), replica, its);
        }
    }

    /// Hears the frames that are whole, and answers whether the link goes on.
    fn hear_frames(&mut self) -> bool {
        for _ in self.rt.forever() {
            let Some(said) = self.end.next(self.rt) else {
                return true;
            };
            self.checkpoint.pass(Point::FrameRead);
            let goes_on = match said {
                Said::Hello(replica) => {
                    self.log.greeted(self.rt, replica);
                    true
                }
                Said::Have { is_news, own } => self.hear_have(is_news, own),
                Said::Ops(ops) => self.hear_ops(ops),
                Said::Bye => {
                    self.over = Over::Bye;
                    false
                }
            };
            if !goes_on {
                return false;
            }
        }
        unreachable!()
    }

    /// Hears a HAVE, which counts so many operations of this replica, and answers whether the link
    /// goes on. It ends if they are more than there are here.
    fn hear_have(&mut self, is_news: bool, own: u64) -> bool {
        self.is_due |= is_news;
        if self.counted < own {
            self.counted = own;
            if self.shared.stop_if_put_back(self.rt, own) {
                self.over = Over::PutBack;
                return false;
            }
        }
        self.count_have()
    }

    /// Hears operations, and answers whether the link goes on. If one can't be taken for now,
    /// nothing more is taken for a while, and then they are asked for again.
    fn hear_ops(&mut self, ops: Ops) -> bool {
        self.haves = 0;
        match self.merge_all(ops) {
            Merging::GoesOn => true,
            Merging::CantTake => {
                self.wake_telling();
                if !self.patience.pause(self.rt, self.end) {
                    return false;
                }
                self.ask_again();
                true
            }
            Merging::Refused => {
                self.end.end_hearing(self.rt);
                false
            }
            Merging::Ends => {
                let _ = self.end.say_bye(self.rt);
                false
            }
        }
    }

    /// Merges the operations of a frame one by one, up to the first one that can't be taken.
    fn merge_all(&mut self, ops: Ops) -> Merging {
        let pieces = ops.into_vec();
        let alloc = *pieces.allocator();
        let mut is_early = false;
        for piece in pieces {
            // A run for whose operations there is no memory is asked for again, as one of them is.
            let Ok(ops) = piece.ops(alloc) else {
                return Merging::CantTake;
            };
            for op in ops {
                match self.merge_one(op) {
                    Ok(came_early) => is_early |= came_early,
                    Err(merging) => return merging,
                }
            }
        }
        if is_early {
            self.ask_again();
        }
        Merging::GoesOn
    }

    /// Merges an operation, and answers whether it came early; an error is what becomes of the link
    /// on which it can't be taken.
    fn merge_one(&mut self, op: Op) -> Result<bool, Merging> {
        match self.shared.merge(self.rt, self.pass, op) {
            Ok(Merged::Applied) => {
                self.has_taken = true;
                self.patience.end();
                Ok(false)
            }
            Ok(Merged::Known) => Ok(false),
            Ok(Merged::Early) => Ok(true),
            Err(refusal) => {
                self.is_out_of_steps = refusal.number() == STEPS;
                let merging = behind(refusal);
                if merging != Merging::CantTake {
                    self.over = Over::Refused(refusal);
                }
                Err(merging)
            }
        }
    }

    /// Has the thread that tells ask for operations again, by a HAVE.
    fn ask_again(&mut self) {
        // If the ring is full, a note is there already.
        let _ = self.notes.push(0);
        self.is_due = true;
    }

    /// Counts a HAVE. After many there is a pause, so that an end that says them as fast as they
    /// are taken leaves the processors to others. Answers whether the link goes on.
    fn count_have(&mut self) -> bool {
        self.haves = self.haves.saturating_add(1);
        if self.haves < MANY_HAVES {
            return true;
        }
        self.haves = 0;
        self.wake_telling();
        thread::sleep(self.rt, Duration::from_millis(PAUSE));
        !self.end.is_over(self.rt)
    }

    /// Wakes the thread that tells over this link, if something may be due: once for all frames of
    /// a piece, since each call takes the hub's lock, for which all others would wait.
    fn wake_telling(&mut self) {
        if self.is_due {
            self.shared.call(self.rt, self.pass.number());
            self.is_due = false;
        }
    }
}

/// What becomes of a link on which an operation is refused so.
fn behind(refusal: SharedRefusal) -> Merging {
    match refusal.number() {
        MEMORY | BUSY => Merging::CantTake,
        FAILED | STEPS | STOPPING => Merging::Ends,
        _ => Merging::Refused,
    }
}
