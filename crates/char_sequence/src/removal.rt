//! Whether a character was removed.
ghost use Rattle.std.specs.Prelude.{◌≡◌, ℕ, true, List, Some};
ghost use Rattle.char_sequence.specs.Content.{is_there, Holds};
ghost use Rattle.op_model.specs.declared.op.Op.{Op};
ghost use Rattle.op_model.specs.declared.character.Character.{Character};
ghost use Rattle.op_model.specs.Text.{is_removed as is_removed_of};

use crate::finding::place;
use crate::sequence::Sequence;
use op_ids::OpId;
use op_model::Ticks;

impl Sequence {
    /// Whether the character of this id was removed. Takes no memory. A search of the character, of
    /// all only where the hint is wrong.
    pub fn is_removed(&self, id: OpId) -> bool
        ensures { (ops : List Op) (doc : ℕ) (c : Character) → Holds self.now ops doc
            → is_there ops doc (Some id) ≡ true → c.id ≡ id → result ≡ is_removed_of ops doc c }
    {
        match place(&self.chunks, &self.hints, &id) {
            Some(at) => match self.chunks.cell(at.chunk, at.at, &mut Ticks::new()) {
                Some(cell) => cell.is_removed,
                None => false,
            },
            None => false,
        }
    }
}
