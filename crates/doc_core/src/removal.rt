//! Whether a character was removed.
ghost use Rattle.std.specs.Prelude.{◌≡◌, true, List, Some};
ghost use Rattle.char_sequence.specs.Content.{is_there};
ghost use Rattle.doc_core.specs.Standing.{StandsFor};
ghost use Rattle.op_model.specs.declared.op.Op.{Op};
ghost use Rattle.op_model.specs.declared.character.Character.{Character};
ghost use Rattle.op_model.specs.Text.{is_removed as is_removed_of};

use crate::doc::Doc;
use op_ids::OpId;

impl Doc {
    /// Whether the character of this id was removed. Takes no memory. Costs what
    /// `Sequence::is_removed` does.
    pub fn is_removed(&self, id: OpId) -> bool
        ensures { (ops : List Op) (c : Character) → StandsFor self.now ops
            → is_there ops self.now.number (Some id) ≡ true → c.id ≡ id
            → result ≡ is_removed_of ops self.now.number c }
    {
        self.sequence.is_removed(id)
    }
}
