//! There are such histories, so the laws speak of something.
ghost use Rattle.std.specs.Prelude.{◌≡◌, [], ◌∷◌};
ghost use Rattle.op_model.specs.Causality.{clock_of};
ghost use Rattle.op_model.specs.Actions.{made_by_action};
ghost use Rattle.op_model.specs.Text.{text};
ghost use Rattle.op_model.specs.Machine.{State};
ghost use Rattle.world_law.specs.World.{HasMachine, IsBeginning};
ghost use Rattle.world_law.specs.Histories.{History};
ghost use Rattle.world_law.specs.Witness.{both_have_it, both_new, first_op, insert_of};
ghost use Rattle.world_law.specs.Witness.{one_tells_and_crashes, second_op};

/// One replica inserts "a", settles and tells it, inserts "b" and crashes; the edit of the "a" is
/// sent again under its token, which adds nothing; another replica applies what was told. Then both
/// have equal clocks and show "a". The id of the "b", which nobody was told, is made again.
pub fn an_operation_goes_from_one_replica_to_another()
    ensures beginning { IsBeginning both_new }
    ensures happens { History both_new one_tells_and_crashes both_have_it }
    ensures shown { (m : State) → HasMachine both_have_it.machines m
        → (clock_of m.held.list ≡ (1, 1) ∷ []) × (text m.held.list 1 ≡ 97 ∷ []) }
    ensures lost { made_by_action (first_op ∷ []) 1 (insert_of 1 98) ≡ second_op 98 ∷ [] }
    ensures again { made_by_action (first_op ∷ []) 1 (insert_of 1 99) ≡ second_op 99 ∷ [] }
{}
