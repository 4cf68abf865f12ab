//! What a peer says in one frame, as the link above takes it.
ghost use Rattle.std.specs.Prelude.{◌≡◌, ◌≤◌, length};
ghost use Rattle.fixed_numbers.specs.declared.limits.TheConstants.{MAX_TOLD};
ghost use Rattle.causal_sync.specs.Frames.{is_bye};

use op_ids::{Clock, ReplicaId};
use op_pieces::Piece;
use std::marker::Model;

/// What a peer says in one frame.
#[derive(Debug, Drop)]
pub enum Heard {
    /// Its name, in its first frame.
    Hello(ReplicaId),
    /// The clock of what it has.
    Have(Clock),
    /// Operations that it has settled.
    Ops(Ops),
    /// It says nothing more.
    Bye,
}

/// The operations of one frame, in their order: 1 to `MAX_TOLD` pieces. Contracts see the pieces.
#[derive(Debug, Drop)]
pub struct Ops {
    pieces: Vec<Piece>,
}

impl Model for Ops {
    ghost use Rattle.std.specs.Prelude.{List, length, ◌≤◌};
    ghost use Rattle.fixed_numbers.specs.declared.limits.TheConstants.{MAX_TOLD};
    ghost use Rattle.op_pieces.specs.Pieces.{Run};

    ghost Value = { List Run };

    ghost view = { λ o. o.pieces.items };

    ghost invariant = { λ o. (1 ≤ length o.pieces.items) × (length o.pieces.items ≤ MAX_TOLD) };
}

impl Ops {
    /// The operations of these pieces.
    pub(crate) fn new(pieces: Vec<Piece>) -> Ops
        requires some { 1 ≤ length pieces.items }
        requires most { length pieces.items ≤ MAX_TOLD }
        ensures { result ≡ pieces.items }
    {
        Ops { pieces }
    }

    /// The pieces, in order. Constant.
    pub fn as_slice(&self) -> &[Piece]
        ensures same { result.now ≡ self.now }
        ensures some { 1 ≤ length result.now }
        ensures most { length result.now ≤ MAX_TOLD }
    {
        &self.pieces
    }

    /// The pieces, in order. Takes no memory.
    pub fn into_vec(self) -> Vec<Piece>
        ensures same { result.items ≡ self }
        ensures some { 1 ≤ length result.items }
        ensures most { length result.items ≤ MAX_TOLD }
    {
        self.pieces
    }
}

impl Heard {
    /// Whether it is a BYE.
    pub fn is_bye(&self) -> bool
        ensures { result ≡ is_bye self.now }
    {
        matches!(self, Heard::Bye)
    }
}
