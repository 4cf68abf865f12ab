//! Two peers that the plain programs serve, as rows have them edit document 1.
use crate::test_acts::{Act, Shown, Who, change, judged, named, spans_of};
use crate::test_names::{replica, text_of};
use op_ids::ReplicaId;
use op_model::{Change, Edit, Op};
use slow_programs::{characters, made, markings, rev, spans, text, visible, walk};
use std::alloc::{AllocError, Global};
use std::io::Eprint;
use std::test::Fail;

/// What a peer does, or has.
#[derive(Clone, Copy)]
pub(crate) enum Step<'a> {
    /// It makes an edit.
    Does(Act<'a>),
    /// With this number it refuses an edit of this document, asked for at this revision; or 0.
    Refuses(u8, u32, Option<u32>, Act<'a>),
    /// It takes the operations of the other peer from an index on, as they come from it.
    Takes(usize),
    /// It lets its last operation go.
    Forgets,
    /// This holds of it.
    Has(Fact<'a>),
}

/// What holds of a peer.
#[derive(Clone, Copy)]
pub(crate) enum Fact<'a> {
    /// How many operations there are of the document.
    Rev(usize),
    /// How many operations its list has.
    Operations(usize),
    /// The operation at an index has this counter, and depends on so many of this replica.
    Operation(usize, u64, u64),
    /// The text that a reader sees.
    Text(&'a str),
    /// The spans that a reader sees.
    Spans(&'a [Shown<'a>]),
    /// How many characters are seen, stand in the text, and are there at all; and how many marks.
    Counts([usize; 4]),
}

/// A peer, and what it does or has.
pub(crate) type Row<'a> = (Who, Step<'a>);

/// What a case shows, and its rows.
pub(crate) type Case<'a> = (&'static str, &'a [Row<'a>]);

/// A replica and its list of operations, all in document 1.
#[derive(Drop)]
struct PlainPeer {
    alloc: Global,
    replica: ReplicaId,
    ops: Vec<Op>,
}

impl PlainPeer {
    fn new(alloc: Global, last: u8) -> Result<PlainPeer, Fail> {
        Ok(PlainPeer {
            alloc,
            replica: replica(last)?,
            ops: Vec::new(alloc),
        })
    }

    fn edit(&mut self, act: Act<'_>) -> Result<bool, Fail> {
        let edit = asked(1, None, change(self.alloc, act)?);
        let mut ops = made(self.alloc, &self.ops, self.replica, &edit)?;
        self.ops.append(&mut ops)?;
        Ok(true)
    }

    /// The number of the refusal of an edit, or 0.
    fn refusal(&self, edit: &Edit) -> u8 {
        match made(self.alloc, &self.ops, self.replica, edit) {
            Ok(_) => 0,
            Err(error) => error.number(),
        }
    }

    fn take_from(&mut self, other: &PlainPeer, from: usize) -> Result<bool, Fail> {
        for op in other.ops.iter().skip(from) {
            self.ops.push(op.copy()?)?;
        }
        Ok(true)
    }

    fn has_operation(&self, index: usize, counter: u64, deps: u64) -> bool {
        match self.ops.get(index) {
            Some(op) => op.id.counter() == counter && op.deps.get(self.replica) == deps,
            None => false,
        }
    }

    fn counts(&self) -> Result<[usize; 4], AllocError> {
        let seen = visible(self.alloc, &self.ops, 1)?.len();
        let standing = walk(self.alloc, &self.ops, 1)?.len();
        let all = characters(self.alloc, &self.ops, 1)?.len();
        let marks = markings(self.alloc, &self.ops, 1)?.len();
        Ok([seen, standing, all, marks])
    }

    /// Does a step, or tells whether it holds.
    fn play(&mut self, step: Step<'_>, other: &PlainPeer) -> Result<bool, Fail> {
        match step {
            Step::Does(act) => self.edit(act),
            Step::Refuses(number, doc, rev, act) => {
                let edit = asked(doc, rev, change(self.alloc, act)?);
                Ok(self.refusal(&edit) == number)
            }
            Step::Takes(from) => self.take_from(other, from),
            Step::Forgets => Ok(self.ops.pop().is_some()),
            Step::Has(fact) => self.has(fact),
        }
    }

    fn has(&self, fact: Fact<'_>) -> Result<bool, Fail> {
        match fact {
            Fact::Rev(count) => Ok(rev(&self.ops, 1) == count),
            Fact::Operations(count) => Ok(self.ops.len() == count),
            Fact::Operation(index, counter, deps) => Ok(self.has_operation(index, counter, deps)),
            Fact::Text(due) => Ok(text(self.alloc, &self.ops, 1)? == text_of(self.alloc, due)?),
            Fact::Spans(due) => Ok(spans(self.alloc, &self.ops, 1)? == spans_of(self.alloc, due)?),
            Fact::Counts(due) => Ok(self.counts()? == due),
        }
    }
}

/// An edit without a token.
pub(crate) fn asked(doc: u32, rev: Option<u32>, change: Change) -> Edit {
    Edit {
        doc,
        rev,
        token: None,
        change,
    }
}

/// The peers of a test: the replicas 1 and 2.
#[derive(Drop)]
struct Pair {
    a: PlainPeer,
    b: PlainPeer,
}

impl Pair {
    /// Boxed, so that what returns early drops a box.
    fn new(alloc: Global) -> Result<Box<Pair>, Fail> {
        let pair = Pair {
            a: PlainPeer::new(alloc, 1)?,
            b: PlainPeer::new(alloc, 2)?,
        };
        Ok(Box::new(alloc, pair)?)
    }

    fn play(&mut self, row: Row<'_>) -> Result<bool, Fail> {
        match row.0 {
            Who::A => self.a.play(row.1, &self.b),
            Who::B => self.b.play(row.1, &self.a),
        }
    }
}

/// Plays these rows between two fresh peers.
fn play(rt: &(impl Eprint + AllocGlobal), rows: &[Row<'_>]) -> Result<(), Fail> {
    let mut pair = Pair::new(rt.alloc())?;
    for (number, row) in rows.iter().enumerate() {
        judged(rt, number, pair.play(*row))?;
    }
    Ok(())
}

/// Plays the rows of each case between two fresh peers.
pub(crate) fn plays(rt: &(impl Eprint + AllocGlobal), cases: &[Case<'_>]) -> Result<(), Fail> {
    for (name, rows) in cases {
        named(rt, name, play(rt, rows))?;
    }
    Ok(())
}
