//! Why an edit isn't served.
ghost use Rattle.std.specs.Prelude.{◌≡◌, ◌≢◌, IsTrue};
ghost use Rattle.replica_core.specs.Refusal.{number_of as number_of_replica};
ghost use Rattle.replica_core.specs.RefusedAt.{is_for_a_change as is_for_a_change_of};
ghost use Rattle.session_lines.specs.Saying.{number_of};
ghost use Rattle.session_lines.specs.declared.refusal.Refusal.TheVariants.{Stopping};
ghost use Rattle.session_threads.specs.HubCalls.{is_edit_refusal};

use replica_core::Refusal as ReplicaRefusal;
use session_lines::Refusal;

/// Why an edit isn't served, by why its replica refuses it: with the same number.
pub fn edit_refusal(refusal: ReplicaRefusal) -> Refusal
    requires { IsTrue (is_edit_refusal (number_of_replica refusal)) }
    ensures number { number_of result ≡ number_of_replica refusal }
    ensures going_on { result ≢ Stopping }
{
    match refusal {
        ReplicaRefusal::Memory => Refusal::Memory,
        ReplicaRefusal::Range => Refusal::Range,
        ReplicaRefusal::Stale => Refusal::Stale,
        ReplicaRefusal::Limit => Refusal::Limit,
        ReplicaRefusal::Steps => Refusal::Steps,
        // Merges and openings alone are refused so.
        ReplicaRefusal::OwnUnknown
        | ReplicaRefusal::Counter
        | ReplicaRefusal::Names
        | ReplicaRefusal::Document
        | ReplicaRefusal::StoreLimit
        | ReplicaRefusal::BadOperation => unreachable!(),
    }
}

/// Whether an edit is refused so for one of its changes: with `Range` (5) or `Limit` (7).
pub(crate) fn is_for_a_change(refusal: Refusal) -> bool
    ensures { result ≡ is_for_a_change_of (number_of refusal) }
{
    match refusal {
        Refusal::Range | Refusal::Limit => true,
        _ => false,
    }
}
