//! Ends of links over peers that hold lists.
use causal_sync::{Heard, Link};
use link_speaker::{Peer, SpeakError, Speaker};
use op_ids::{Clock, OpId, ReplicaId};
use op_model::{Body, Op};
use std::alloc::{AllocError, Global};
use std::io::Write;
use std::test::Fail;

/// The most operations that are told at once.
const MOST: usize = 64;

/// Holds operations in a list, all of them settled.
#[derive(Drop)]
pub struct Listed {
    pub alloc: Global,
    pub ops: Vec<Op>,
}

impl Listed {
    /// So many inserts of a replica, each typed right behind the one before.
    fn new(alloc: Global, replica: ReplicaId, count: u64) -> Result<Listed, Fail> {
        let mut ops = Vec::new(alloc);
        let mut deps = Clock::new(alloc);
        for counter in 1..=count {
            ops.push(Op {
                id: OpId::try_new(counter, replica).ok_or("counter")?,
                doc: 1,
                token: None,
                deps: deps.copy()?,
                body: Body::Insert {
                    origin: OpId::try_new(counter.saturating_sub(1), replica),
                    value: 'a',
                },
            })?;
            deps.advance(replica)?;
        }
        Ok(Listed { alloc, ops })
    }

    /// Takes in those of these operations that aren't there yet.
    fn merge(&mut self, ops: Vec<Op>) -> Result<(), Fail> {
        for op in ops {
            if !is_counted(&self.have()?, &op) {
                self.ops.push(op)?;
            }
        }
        Ok(())
    }
}

/// Whether a clock counts this operation.
fn is_counted(clock: &Clock, op: &Op) -> bool {
    let replica = op.id.replica();
    clock.get(replica) > op.deps.get(replica)
}

impl Peer for Listed {
    ghost use Rattle.std.specs.Prelude.{⊤};

    ghost has = { λ _ _ _. ⊤ };

    ghost tells = { λ _ _ _ _. ⊤ };

    fn have(&mut self) -> Result<Clock, AllocError> {
        let mut clock = Clock::new(self.alloc);
        for op in &self.ops {
            clock.advance(op.id.replica()).map_err(|_| AllocError)?;
        }
        Ok(clock)
    }

    fn tell(&mut self, clock: &Clock) -> Result<Vec<Op>, AllocError> {
        let mut told = Vec::new(self.alloc);
        for op in &self.ops {
            if told.len() < MOST && !is_counted(clock, op) {
                told.push(op.copy()?)?;
            }
        }
        Ok(told)
    }
}

/// One end of a link.
#[derive(Drop)]
pub struct End {
    pub alloc: Global,
    pub speaker: Speaker,
    pub peer: Listed,
    pub link: Link,
}

impl End {
    /// A replica whose name ends in this byte, and that has made `count` operations. Boxed, so that
    /// its drop is proved once, and not at each way out of a test.
    pub fn new(alloc: Global, last: u8, count: u64) -> Result<Box<End>, Fail> {
        let name = [0, 0, 0, 0, 0, 0, 0x40, 0, 0x80, 0, 0, 0, 0, 0, 0, last];
        let own = ReplicaId::read(name).ok_or("nil")?;
        let peer = Listed::new(alloc, own, count)?;
        let end = End {
            alloc,
            speaker: Speaker::new(alloc),
            peer,
            link: Link::start(alloc, own)?,
        };
        Ok(Box::new(alloc, end)?)
    }

    /// Says once what is due.
    pub fn speak<W: Write>(&mut self, writer: &mut W, is_asked: bool) -> Result<bool, SpeakError> {
        self.speaker
            .speak(&mut self.peer, &mut self.link, writer, is_asked)
    }

    /// Says once what is due. Gives the bytes, and whether operations were said.
    pub fn spoken(&mut self) -> Result<(Vec<u8>, bool), Fail> {
        let mut bytes = Vec::new(self.alloc);
        let has_told = self.speak(&mut bytes, false)?;
        Ok((bytes, has_told))
    }

    /// Hears these bytes, and takes in the operations in them. Gives how many HAVE there were.
    pub fn hear(&mut self, bytes: &[u8]) -> Result<usize, Fail> {
        self.link.feed(bytes)?;
        let mut haves = 0usize;
        for _ in 0..bytes.len() {
            match self.link.next() {
                Some(heard) => haves = haves.saturating_add(self.take_in(heard)?),
                None => break,
            }
        }
        Ok(haves)
    }

    /// Takes in the operations of a frame. Gives 1 for a HAVE.
    fn take_in(&mut self, heard: Heard) -> Result<usize, Fail> {
        match heard {
            Heard::Have(_clock) => Ok(1),
            Heard::Ops(ops) => {
                for piece in ops.into_vec() {
                    self.peer.merge(piece.ops(self.alloc)?)?;
                }
                Ok(0)
            }
            Heard::Hello(_) | Heard::Bye => Ok(0),
        }
    }
}

/// What one end says comes to the other. Gives whether it said anything.
fn passed(from: &mut End, to: &mut End) -> Result<bool, Fail> {
    let (bytes, _has_told) = from.spoken()?;
    to.hear(&bytes)?;
    Ok(!bytes.is_empty())
}

/// The turns that two ends take until neither has anything to say.
pub fn turns(first: &mut End, second: &mut End) -> Result<u32, Fail> {
    for turn in 0..100 {
        let has_spoken = passed(first, second)?;
        let has_answered = passed(second, first)?;
        if !has_spoken && !has_answered {
            return Ok(turn);
        }
    }
    Err("no end".into())
}
