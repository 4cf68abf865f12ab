//! A replica of one document, for tests.
use crate::test_acts::{Act, change};
use crate::test_names::{replica, text_of};
use doc_core::{Doc, Made, MakeError};
use op_ids::{Clock, OpId, ReplicaId};
use op_model::{
    Anchor, Author, Body, Change, Character, End, Lasting, Mark, Neighbour, Op, Start, Text, Url,
};
use slow_programs::{is_removed, rev, text, walk};
use std::alloc::Global;
use std::test::Fail;

/// A replica that edits document 1: its document, its list, and its clock.
#[derive(Drop)]
pub struct Peer {
    pub alloc: Global,
    pub replica: ReplicaId,
    pub doc: Doc,
    pub ops: Vec<Op>,
    pub clock: Clock,
    pub last: u64,
    /// The places that it noted.
    pub places: Vec<Lasting>,
}

impl Peer {
    /// Boxed, so that a test which returns early drops a box: that a peer is dropped is then proved
    /// once, and not at each return.
    pub fn new(alloc: Global, last: u8) -> Result<Box<Peer>, Fail> {
        let peer = Peer {
            alloc,
            replica: replica(last)?,
            doc: Doc::new(alloc, 1),
            ops: Vec::new(alloc),
            clock: Clock::new(alloc),
            last: 0,
            places: Vec::new(alloc),
        };
        Ok(Box::new(alloc, peer)?)
    }

    /// What a change makes, or the refusal of it.
    fn made(&self, change: &Change) -> Result<Made, MakeError> {
        let author = Author {
            replica: self.replica,
            token: None,
            counter: self.last.wrapping_add(1),
            clock: &self.clock,
        };
        match change {
            Change::Insert { at, text } => self.doc.make_insert(self.alloc, &author, *at, text),
            Change::Delete { at, count } => {
                self.doc.make_remove(self.alloc, &author, *at, *count)
            }
            _ => self.doc.make(self.alloc, &author, change),
        }
    }

    /// What an edit makes.
    pub fn make(&self, act: Act<'_>) -> Result<Made, Fail> {
        let change = change(self.alloc, act)?;
        Ok(self.made(&change)?)
    }

    /// The number of the refusal of an edit, or 0.
    pub fn refusal(&self, act: Act<'_>) -> Result<u8, Fail> {
        let change = change(self.alloc, act)?;
        match self.made(&change) {
            Ok(_) => Ok(0),
            Err(error) => Ok(error.number()),
        }
    }

    fn keep(&mut self, op: Op) -> Result<(), Fail> {
        self.clock.advance(op.id.replica())?;
        self.last = self.last.max(op.id.counter());
        self.ops.push(op)?;
        Ok(())
    }

    fn keep_made(&mut self, made: &Made) -> Result<(), Fail> {
        self.doc.apply_edit(made)?;
        for op in made.as_slice() {
            self.keep(op.copy()?)?;
        }
        Ok(())
    }

    /// Makes an edit and takes it.
    pub fn edit(&mut self, act: Act<'_>) -> Result<(), Fail> {
        let made = self.make(act)?;
        self.keep_made(&made)
    }

    /// Where the mark operations end that the list has, of each kind the last one.
    pub fn ends(&self) -> (Option<End>, Option<End>) {
        let mut added = None;
        let mut removed = None;
        for op in &self.ops {
            match &op.body {
                Body::AddMark { end, .. } => added = Some(*end),
                Body::RemoveMark { end, .. } => removed = Some(*end),
                _ => {}
            }
        }
        (added, removed)
    }

    /// Takes one operation of another peer.
    pub fn take(&mut self, op: &Op) -> Result<(), Fail> {
        self.doc.apply(op)?;
        self.keep(op.copy()?)
    }

    /// Takes what another peer has from an index on that isn't its copy of this peer's, one by one.
    pub fn take_from(&mut self, other: &Peer, from: usize) -> Result<(), Fail> {
        for op in other.ops.iter().skip(from) {
            if op.id.replica() != self.replica {
                self.take(op)?;
            }
        }
        Ok(())
    }

    /// Makes an operation of this replica, and takes it.
    fn make_own(&mut self, body: Body) -> Result<(), Fail> {
        let op = Op {
            id: self.id(self.last.wrapping_add(1))?,
            doc: 1,
            token: None,
            deps: self.clock.copy()?,
            body,
        };
        self.take(&op)
    }

    /// A mark operation of this replica, from one of its characters to behind another one.
    pub fn link(&mut self, start: u64, end: u64) -> Result<(), Fail> {
        let url = Url::new(String::from_str(self.alloc, "u")?).ok_or("no link")?;
        let body = Body::AddMark {
            mark: Mark::Link(url),
            start: Start::From(Anchor::Before(self.id(start)?)),
            end: End::To(Anchor::After(self.id(end)?)),
        };
        self.make_own(body)
    }

    /// Notes the place after so many visible characters.
    pub fn note(&mut self, at: usize, side: Neighbour) -> Result<(), Fail> {
        let place = self.doc.place(at, side).ok_or("no place")?;
        self.places.push(place)?;
        Ok(())
    }

    /// Notes the places that another peer noted.
    pub fn note_theirs(&mut self, other: &Peer) -> Result<(), Fail> {
        for place in &other.places {
            self.places.push(*place)?;
        }
        Ok(())
    }

    /// Whether the places that it noted stand there now.
    pub fn stand(&self, due: &[Option<usize>]) -> bool {
        if self.places.len() != due.len() {
            return false;
        }
        for (place, due) in self.places.iter().zip(due) {
            if self.doc.at(place) != *due {
                return false;
            }
        }
        true
    }

    pub fn shows(&self, expected: &str) -> Result<bool, Fail> {
        Ok(self.doc.text()? == text_of(self.alloc, expected)?)
    }

    /// Whether the document shows what the plain programs make of the list.
    pub fn agrees(&self) -> Result<bool, Fail> {
        let same_text = self.doc.text()? == text(self.alloc, &self.ops, 1)?;
        Ok(same_text && self.doc.rev() == rev(&self.ops, 1) as u64)
    }

    /// The id and the origin of an insert of one character.
    pub fn made_origin(&self, at: u32) -> Result<Option<(OpId, Option<OpId>)>, Fail> {
        let made = self.make(Act::Insert(at, "x"))?;
        for op in made.as_slice() {
            if let Body::Insert { origin, .. } = &op.body {
                return Ok(Some((op.id, *origin)));
            }
        }
        Ok(None)
    }

    /// Puts a letter behind a character, tombstones too: nothing comes to stand between the two.
    fn put_behind(&mut self, origin: OpId, value: char) -> Result<(), Fail> {
        let origin = Some(origin);
        self.make_own(Body::Insert { origin, value })
    }

    /// Puts 0, 1, 2 and so on behind the characters of this replica with these counters, so that
    /// the text tells in which order they stand.
    pub fn number(&mut self, counters: &[u64]) -> Result<(), Fail> {
        for (counter, value) in counters.iter().zip('0'..='9') {
            let origin = self.id(*counter)?;
            self.put_behind(origin, value)?;
        }
        Ok(())
    }

    /// Puts a letter of its own behind a character that the plain walk has, and behind the text so
    /// far what a reader sees then.
    fn letter(&mut self, seen: &mut Vec<char>, at: &Character, value: char) -> Result<(), Fail> {
        if !is_removed(&self.ops, 1, at) {
            seen.push(at.value)?;
        }
        seen.push(value)?;
        self.put_behind(at.id, value)
    }

    /// Puts a letter of its own behind each character that the plain walk has, and gives the text
    /// that a reader sees then: so it tells where each character stands, tombstones too.
    pub fn letter_all(&mut self) -> Result<Text, Fail> {
        let mut seen = Vec::new(self.alloc);
        for (character, value) in walk(self.alloc, &self.ops, 1)?.iter().zip('一'..='龥') {
            self.letter(&mut seen, character, value)?;
        }
        Ok(Text::from(seen))
    }

    pub fn id(&self, counter: u64) -> Result<OpId, Fail> {
        Ok(OpId::try_new(counter, self.replica).ok_or("counter")?)
    }
}
