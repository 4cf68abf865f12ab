//! What changed, as an answer tells it.
ghost use Rattle.std.specs.Prelude.{◌≡◌};

use op_model::ChangeStep;
use std::marker::Model;

/// What changed in a text, as steps over it. Contracts see the list of them.
#[derive(Drop)]
pub struct ChangeList {
    steps: Vec<ChangeStep>,
}

impl Model for ChangeList {
    ghost use Rattle.std.specs.Prelude.{List};
    ghost use Rattle.op_model.specs.declared.change_step.ChangeStep.{ChangeStep};

    ghost Value = { List ChangeStep };

    ghost view = { λ l. l.steps.items };
}

impl From<Vec<ChangeStep>> for ChangeList {
    ghost from_gives = { λ steps result. result ≡ steps.items };

    fn from(steps: Vec<ChangeStep>) -> ChangeList {
        ChangeList { steps }
    }
}

impl ChangeList {
    /// The steps, in order.
    pub fn as_slice(&self) -> &[ChangeStep]
        ensures { result.now ≡ self.now }
    {
        &self.steps
    }
}
