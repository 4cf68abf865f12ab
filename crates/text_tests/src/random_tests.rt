//! Random edits of a few replicas, against the plain programs.
use crate::test_acts::{Act, Look};
use crate::test_documents::Peer;
use slow_programs::spans;
use std::alloc::Global;
use std::test::Fail;

/// Numbers that look random.
#[derive(Drop)]
struct Random(u64);

impl Random {
    /// One of the numbers below this one, or 0.
    fn below(&mut self, bound: u32) -> u32 {
        self.0 = self
            .0
            .wrapping_mul(6_364_136_223_846_793_005)
            .wrapping_add(1_442_695_040_888_963_407);
        let number = (self.0 >> 40) as u32;
        if bound == 0 { 0 } else { number % bound }
    }
}

/// An edit somewhere in a text of this size: mostly an insert of one to three characters.
fn edit_somewhere(size: u32, random: &mut Random) -> Act<'static> {
    if size > 0 && random.below(3) == 0 {
        return Act::Delete(random.below(size), 1);
    }
    let text = match random.below(3) {
        0 => "p",
        1 => "qr",
        _ => "stu",
    };
    Act::Insert(random.below(size.wrapping_add(1)), text)
}

/// A mark or its removal somewhere in a text of this size, if it has characters.
fn mark_somewhere(size: u32, random: &mut Random) -> Option<Act<'static>> {
    if size == 0 {
        return None;
    }
    let from = random.below(size);
    let to = from
        .wrapping_add(1)
        .wrapping_add(random.below(size.wrapping_sub(from)));
    let comment = Look::Commented(if random.below(2) == 0 { 1 } else { 2 });
    Some(match random.below(6) {
        0 => Act::Mark(from, to, Look::Strong),
        1 => Act::Unmark(from, to, Look::Strong),
        2 => Act::Mark(from, to, comment),
        3 => Act::Unmark(from, to, comment),
        4 => Act::Unmark(from, to, Look::Linked("u")),
        _ => Act::Mark(from, to, Look::Linked("u")),
    })
}

/// Each third change is a mark or its removal.
fn change_somewhere(peer: &mut Peer, random: &mut Random) -> Result<(), Fail> {
    let is_mark = random.below(3) == 0;
    let size = u32::try_from(peer.doc.text()?.as_slice().len()).map_err(|_| "long")?;
    let act = if is_mark {
        mark_somewhere(size, random)
    } else {
        Some(edit_somewhere(size, random))
    };
    match act {
        Some(act) => peer.edit(act),
        None => Ok(()),
    }
}

/// Takes the first `most` operations of another peer that aren't known, in its order.
fn take_some(peer: &mut Peer, other: &Peer, most: u32) -> Result<(), Fail> {
    let mut left = most;
    for op in &other.ops {
        let known = op.deps.get(op.id.replica()) < peer.clock.get(op.id.replica());
        if !known && left > 0 {
            peer.take(op)?;
            left -= 1;
        }
    }
    Ok(())
}

/// Whether all characters stand where the plain walk has them, tombstones too.
fn walks(peer: &mut Peer) -> Result<bool, Fail> {
    let expected = peer.letter_all()?;
    Ok(peer.doc.text()? == expected)
}

/// Three replicas that edit one document.
#[derive(Drop)]
struct Three {
    a: Box<Peer>,
    b: Box<Peer>,
    c: Box<Peer>,
}

impl Three {
    fn new(alloc: Global) -> Result<Three, Fail> {
        Ok(Three {
            a: Peer::new(alloc, 1)?,
            b: Peer::new(alloc, 2)?,
            c: Peer::new(alloc, 3)?,
        })
    }

    /// A change of one, or some operations of another.
    fn step(&mut self, random: &mut Random) -> Result<(), Fail> {
        let most = random.below(9);
        match random.below(9) {
            0 => take_some(&mut self.a, &self.b, most),
            1 => take_some(&mut self.a, &self.c, most),
            2 => take_some(&mut self.b, &self.a, most),
            3 => take_some(&mut self.b, &self.c, most),
            4 => take_some(&mut self.c, &self.a, most),
            5 => take_some(&mut self.c, &self.b, most),
            6 => change_somewhere(&mut self.a, random),
            7 => change_somewhere(&mut self.b, random),
            _ => change_somewhere(&mut self.c, random),
        }
    }

    /// Each takes all that it lacks, so each has all operations, in an order of its own.
    fn settle(&mut self) -> Result<(), Fail> {
        take_some(&mut self.a, &self.b, u32::MAX)?;
        take_some(&mut self.a, &self.c, u32::MAX)?;
        take_some(&mut self.b, &self.c, u32::MAX)?;
        take_some(&mut self.b, &self.a, u32::MAX)?;
        take_some(&mut self.c, &self.b, u32::MAX)
    }

    /// Whether each document is what the plain programs make of its list, and all show one text
    /// with one formatting.
    fn agree(&self) -> Result<bool, Fail> {
        let have_all = self.a.ops.len() == self.b.ops.len() && self.a.ops.len() == self.c.ops.len();
        Ok(
            have_all
                && is_plain(&self.a)?
                && is_plain(&self.b)?
                && is_plain(&self.c)?
                && show_one(&self.a, &self.b)?
                && show_one(&self.a, &self.c)?,
        )
    }

    /// Whether the characters of each stand where they are to.
    fn walk(&mut self) -> Result<bool, Fail> {
        Ok(walks(&mut self.a)? && walks(&mut self.b)? && walks(&mut self.c)?)
    }

    /// A history of `steps` steps: how many operations it ends with, or 0 where something differs.
    fn agreed(&mut self, random: &mut Random, steps: usize) -> Result<usize, Fail> {
        for _ in 0..steps {
            self.step(random)?;
        }
        self.settle()?;
        let size = self.a.ops.len();
        if !self.agree()? || !self.walk()? {
            return Ok(0);
        }
        Ok(size)
    }
}

/// Whether the document is what the plain programs make of the list.
fn is_plain(peer: &Peer) -> Result<bool, Fail> {
    let same_spans = peer.doc.spans()? == spans(peer.alloc, &peer.ops, 1)?;
    Ok(same_spans && peer.agrees()?)
}

fn show_one(a: &Peer, b: &Peer) -> Result<bool, Fail> {
    Ok(a.doc.text()? == b.doc.text()? && a.doc.spans()? == b.doc.spans()?)
}

#[test]
fn ten_thousand_operations_agree_with_the_plain_programs(rt: HostRuntime) -> Result<(), Fail> {
    let mut random = Random(1);
    let mut applied = 0usize;
    for _ in 0..60 {
        let more = Three::new(rt.alloc())?.agreed(&mut random, 500)?;
        assert!(rt; more > 0);
        applied = applied.saturating_add(more);
    }
    assert!(rt; applied >= 10_000);
    Ok(())
}
