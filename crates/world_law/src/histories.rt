//! What holds at every moment of every history.
ghost use Rattle.world_law.specs.Laws.{Always, EachFrontIsOne, HoldsOneOperation, KeepsWhatWasTold};
ghost use Rattle.world_law.specs.Laws.{NeverMadeAgain, ShowsTheSame, TellsOneOperation};

/// Each front of a history is one, and so is what follows it.
pub fn fronts_of_histories_are_histories()
    ensures { EachFrontIsOne }
{}

/// No id names two operations, in the lists of all replicas and in all that was told.
pub fn ids_name_one_operation()
    ensures held { Always HoldsOneOperation }
    ensures told { Always TellsOneOperation }
{}

/// The id of an operation that was told is never made again, by any replica.
pub fn told_ids_are_never_made_again()
    ensures { NeverMadeAgain }
{}

/// Replicas with equal clocks show equal text and spans in every document.
pub fn equal_clocks_show_the_same()
    ensures { Always ShowsTheSame }
{}

/// Each operation that was told lies in its maker's settled list, across all of its crashes.
pub fn told_operations_stay_settled()
    ensures { Always KeepsWhatWasTold }
{}
