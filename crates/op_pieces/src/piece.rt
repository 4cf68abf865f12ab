//! Operations that one record can hold.
ghost use Rattle.std.specs.Prelude.{◌≡◌, true, OnOk, OnErr};
ghost use Rattle.op_pieces.specs.Pieces.{Run, is_piece, longer, single};

use op_model::Op;
use std::alloc::{AllocError, Global};
use std::marker::Model;

/// Operations in a row that one record can hold: one of any kind, or a run of 2 to 256 inserts that
/// one replica typed one right behind another in one edit. It is held as its first operation and
/// the characters of the others. Contracts see just these.
#[derive(Debug, Drop)]
pub struct Piece {
    first: Op,
    others: Vec<char>,
}

impl Model for Piece {
    ghost Value = { Run };

    ghost view = { λ p. record { first = p.first; others = p.others.items } };

    ghost invariant = { λ p.
        is_piece (record { first = p.first; others = p.others.items }) ≡ true };
}

impl Piece {
    /// The piece with this first operation and these characters typed behind it: none, or up to 255
    /// behind an insert whose counter, own count and deps leave room for them. Takes no memory.
    pub fn new(first: Op, others: Vec<char>) -> Piece
        requires { is_piece (record { first = first; others = others.items }) ≡ true }
        ensures { result ≡ record { first = first; others = others.items } }
    {
        Piece { first, others }
    }

    /// The piece of one operation. Takes no memory.
    pub fn single(alloc: Global, op: Op) -> Piece
        ensures { result ≡ single op }
    {
        Piece {
            first: op,
            others: Vec::new(alloc),
        }
    }

    /// Its first operation.
    pub fn first(&self) -> &Op
        ensures { result.now ≡ self.now.first }
    {
        &self.first
    }

    /// The characters of the other operations: each is inserted right behind the one before.
    pub fn others(&self) -> &[char]
        ensures same { result.now ≡ self.now.others }
        ensures piece { is_piece self.now ≡ true }
    {
        &self.others
    }

    /// Puts a character behind the others, with which it still is a piece. An error is out of
    /// memory (1).
    pub(crate) fn grow(&mut self, value: char) -> Result<(), AllocError>
        requires { is_piece (longer self.old value) ≡ true }
        ensures grown { OnOk result (self.new ≡ longer self.old value) }
        ensures same { OnErr result (self.new ≡ self.old) }
    {
        self.others.push(value)?;
        Ok(())
    }
}
