//! How a list is cut into pieces.
use crate::test_names::replica;
use crate::test_rows::{Case, World, named, play, told, two_of};
use op_ids::{Clock, OpId};
use op_model::{Body, Op};
use op_pieces::{Piece, cut};
use std::alloc::Global;
use std::test::Fail;

/// An insert of replica 1 with this counter, which counts those before it among its deps, behind
/// the one with the counter before.
fn typed(alloc: Global, counter: u64, value: char) -> Result<Op, Fail> {
    let replica = replica(1)?;
    let mut deps = Clock::new(alloc);
    deps.advance_by(replica, counter.saturating_sub(1))?;
    Ok(Op {
        id: OpId::try_new(counter, replica).ok_or("counter")?,
        doc: 1,
        token: None,
        deps,
        body: Body::Insert {
            origin: OpId::try_new(counter.saturating_sub(1), replica),
            value,
        },
    })
}

/// So many typed characters, where the k-th is of another document: `5 3`.
fn ops(alloc: Global, words: &str) -> Result<Vec<Op>, Fail> {
    let (count, other) = two_of(words)?;
    let (count, other) = (count as usize, other as usize);
    let mut ops = Vec::new(alloc);
    for counter in 1..=count as u64 {
        let mut op = typed(alloc, counter, 'a')?;
        if counter == other as u64 {
            op.doc = 2;
        }
        ops.push(op)?;
    }
    Ok(ops)
}

/// How many characters stand behind the first operation of each piece of operations.
fn lengths(alloc: Global, ops: &[Op]) -> Result<Vec<usize>, Fail> {
    let mut found = Vec::new(alloc);
    for piece in &cut(alloc, ops)? {
        found.push(piece.others().len())?;
    }
    Ok(found)
}

/// The same of operations that words say, as text.
fn lengths_of(alloc: Global, words: &str) -> Result<String, Fail> {
    let found = lengths(alloc, &ops(alloc, words)?)?;
    Ok(format!(in alloc; "{found:?}")?)
}

/// Whether a piece of one operation is that one, and of no others.
fn is_single(alloc: Global) -> Result<bool, Fail> {
    let piece = Piece::new(typed(alloc, 1, 'a')?, Vec::new(alloc));
    Ok(*piece.first() == typed(alloc, 1, 'a')? && piece.others().is_empty())
}

/// Whether operations are one piece, which stands for them.
fn are_one_piece(alloc: Global, words: &str) -> Result<bool, Fail> {
    let ops = ops(alloc, words)?;
    let pieces = cut(alloc, &ops)?;
    match pieces.as_slice() {
        [piece] => Ok(piece.ops(alloc)? == ops),
        _ => Ok(false),
    }
}

/// Pieces need nothing to be held.
#[derive(Drop)]
struct Pieces;

impl World for Pieces {
    fn answer(&mut self, alloc: Global, command: &str, words: &str) -> Result<String, Fail> {
        match command {
            "lengths" => lengths_of(alloc, words),
            "single" => told(alloc, is_single(alloc)),
            "one" => told(alloc, are_one_piece(alloc, words)),
            _ => Err("no such command".into()),
        }
    }
}

static CASES: [Case; 4] = [
    (
        "typed characters are pieces of 256",
        "lengths 0 0 : []
        lengths 1 0 : [0]
        lengths 257 0 : [255, 0]",
    ),
    ("another document ends a piece", "lengths 5 3 : [1, 0, 1]"),
    ("a piece of no others is one operation", "single : true"),
    ("a piece stands for its operations", "one 3 : true"),
];

#[test]
fn lists_are_cut_into_pieces(rt: HostRuntime) -> Result<(), Fail> {
    for (name, rows) in &CASES {
        named(&rt, name, play(rt.alloc(), &mut Pieces, rows))?;
    }
    Ok(())
}
