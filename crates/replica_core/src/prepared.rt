//! The operations of an action, and what is kept with them.
ghost use Rattle.std.specs.Prelude.{◌≡◌};
ghost use Rattle.replica_core.specs.Edited.{ops_of};

use crate::edited::Edited;
use edit_tokens::Place;
use op_ids::Clock;
use op_model::Op;

/// The operations of an action, and what is kept with them, as `Replica::prepare` makes them and
/// `Replica::put_prepared` takes them.
#[derive(Drop)]
pub struct Prepared {
    pub(crate) edited: Edited,
    /// The clock of the list with the operations behind it.
    pub(crate) clock: Clock,
    /// How long the list is then, and how many operations the action's document has.
    pub(crate) place: Place,
}

impl Prepared {
    /// The operations of the action, in order. Constant.
    pub fn ops(&self) -> &[Op]
        ensures { result.now ≡ ops_of self.now.edited }
    {
        self.edited.as_slice()
    }
}
