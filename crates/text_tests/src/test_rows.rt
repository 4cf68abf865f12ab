//! Two replicas of one document, as rows have them edit and merge it.
use crate::test_acts::{Act, Who, change, judged, named};
use crate::test_changes::{Due, changes, follows, steps_of};
use crate::test_documents::Peer;
use op_model::{Anchor, End, Lasting, Neighbour};
use std::alloc::Global;
use std::io::Eprint;
use std::test::Fail;

/// What a replica does, or has.
#[derive(Clone, Copy)]
pub(crate) enum Step<'a> {
    /// It makes an edit, and takes it.
    Does(Act<'a>),
    /// With this number it refuses to make an edit; or 0.
    Refuses(u8, Act<'a>),
    /// It takes the other's operations from an index on, but for those of its own.
    Takes(usize),
    /// With this number its document refuses the other's operation at an index.
    RefusesTheirs(u8, usize),
    /// With this number its document refuses an edit as the other one makes it.
    RefusesMade(u8, Act<'a>),
    /// It puts a link from before its character of one counter to behind that of another.
    Links(u64, u64),
    /// It puts 0, 1, 2 and so on behind its characters of these counters.
    Numbers(&'a [u64]),
    /// It knows of this counter as the last.
    Knows(u64),
    /// It notes the place after so many visible characters, which stays with this neighbour.
    Notes(usize, Neighbour),
    /// It notes the places that the other one noted.
    NotesTheirs,
    /// This holds of it.
    Has(Fact<'a>),
}

/// What holds of a replica.
#[derive(Clone, Copy)]
pub(crate) enum Fact<'a> {
    /// The text that a reader sees.
    Text(&'a str),
    /// How many operations the document has.
    Rev(u64),
    /// The document shows what the plain programs make of the list.
    Plain,
    /// The last operation that adds a mark ends before the character of this counter, and the last
    /// one that takes marks away at the end of the text.
    EndsBefore(u64),
    /// An edit isn't inside the text.
    Outside(Act<'a>),
    /// Where the places stand that it noted.
    Stand(&'a [Option<usize>]),
    /// There is no place after so many visible characters.
    NoPlace(usize, Neighbour),
    /// The place before all characters stays with the start of the text.
    StartsAtItsStart,
    /// What changed since its list had so many operations.
    Changed(usize, &'a [Due<'a>]),
    /// One who has the text of so many operations, and takes what changed since, has what the plain
    /// programs make of the list.
    Follows(usize),
    /// A character put at a place gets this counter, and the one of that counter as its origin.
    Origin(u32, u64, Option<u64>),
}

/// A replica, and what it does or has.
pub(crate) type Row<'a> = (Who, Step<'a>);

/// What a case shows, and its rows.
pub(crate) type Case<'a> = (&'static str, &'a [Row<'a>]);

impl Peer {
    /// Does a step, or tells whether it holds.
    fn play(&mut self, step: Step<'_>, other: &Peer) -> Result<bool, Fail> {
        match step {
            Step::Does(act) => self.edit(act)?,
            Step::Refuses(number, act) => return Ok(self.refusal(act)? == number),
            Step::Takes(from) => self.take_from(other, from)?,
            Step::RefusesTheirs(number, index) => return self.refuses(number, other, index),
            Step::RefusesMade(number, act) => return self.refuses_made(number, other, act),
            Step::Links(start, end) => self.link(start, end)?,
            Step::Numbers(counters) => self.number(counters)?,
            Step::Knows(counter) => self.last = counter,
            Step::Notes(at, side) => self.note(at, side)?,
            Step::NotesTheirs => self.note_theirs(other)?,
            Step::Has(fact) => return self.has(fact),
        }
        Ok(true)
    }

    fn refuses(&mut self, number: u8, other: &Peer, index: usize) -> Result<bool, Fail> {
        let op = other.ops.get(index).ok_or("no operation")?;
        match self.doc.apply(op) {
            Ok(()) => Ok(false),
            Err(error) => Ok(error.number() == number),
        }
    }

    fn refuses_made(&mut self, number: u8, other: &Peer, act: Act<'_>) -> Result<bool, Fail> {
        let made = other.make(act)?;
        match self.doc.apply_edit(&made) {
            Ok(()) => Ok(false),
            Err(error) => Ok(error.number() == number),
        }
    }

    fn has(&self, fact: Fact<'_>) -> Result<bool, Fail> {
        match fact {
            Fact::Text(due) => self.shows(due),
            Fact::Rev(count) => Ok(self.doc.rev() == count),
            Fact::Plain => self.agrees(),
            Fact::EndsBefore(counter) => {
                let end = End::To(Anchor::Before(self.id(counter)?));
                Ok(self.ends() == (Some(end), Some(End::OfText)))
            }
            Fact::Outside(act) => Ok(!self.doc.is_inside(&change(self.alloc, act)?)),
            Fact::Stand(due) => Ok(self.stand(due)),
            Fact::NoPlace(at, side) => Ok(self.doc.place(at, side).is_none()),
            Fact::StartsAtItsStart => {
                Ok(self.doc.place(0, Neighbour::Previous) == Some(Lasting::StartOfText))
            }
            Fact::Changed(from, due) => Ok(changes(self, from)? == steps_of(self.alloc, due)?),
            Fact::Follows(from) => follows(self, from),
            Fact::Origin(at, counter, origin) => self.has_origin(at, counter, origin),
        }
    }

    fn has_origin(&self, at: u32, counter: u64, origin: Option<u64>) -> Result<bool, Fail> {
        let origin = match origin {
            Some(counter) => Some(self.id(counter)?),
            None => None,
        };
        Ok(self.made_origin(at)? == Some((self.id(counter)?, origin)))
    }
}

/// The replicas of a test: 1 and 2.
#[derive(Drop)]
struct Pair {
    a: Box<Peer>,
    b: Box<Peer>,
}

impl Pair {
    fn new(alloc: Global) -> Result<Pair, Fail> {
        Ok(Pair {
            a: Peer::new(alloc, 1)?,
            b: Peer::new(alloc, 2)?,
        })
    }

    fn play(&mut self, row: Row<'_>) -> Result<bool, Fail> {
        match row.0 {
            Who::A => self.a.play(row.1, &self.b),
            Who::B => self.b.play(row.1, &self.a),
        }
    }
}

/// Plays these rows between two replicas of a fresh document.
fn play(rt: &(impl Eprint + AllocGlobal), rows: &[Row<'_>]) -> Result<(), Fail> {
    let mut pair = Pair::new(rt.alloc())?;
    for (number, row) in rows.iter().enumerate() {
        judged(rt, number, pair.play(*row))?;
    }
    Ok(())
}

/// Plays the rows of each case between two replicas of a fresh document.
pub(crate) fn plays(rt: &(impl Eprint + AllocGlobal), cases: &[Case<'_>]) -> Result<(), Fail> {
    for (name, rows) in cases {
        named(rt, name, play(rt, rows))?;
    }
    Ok(())
}
