//! Where one replica's operations stand in a list.
ghost use Rattle.std.specs.Prelude.{◌≡◌, ◌≢◌, ℕ, ◌+◌, ◌≤◌, ◌<◌, [], ◌∷◌, ◌++◌, true, false, nat_lt, length, MatchOption, OnOk};
ghost use Rattle.std.specs.List.Sorted.{IsNonDecreasing, IsPartitionPoint};
ghost use Rattle.replica_core.specs.Makers.{maker_place, places_of as places_in, room_of};

use op_ids::ReplicaId;
use std::alloc::{AllocError, Global};

/// Where the operations of one replica stand in a list: four bytes an operation.
#[derive(Debug, Drop)]
pub struct Maker {
    pub replica: ReplicaId,
    /// The indexes of its operations, in the order of the list.
    pub places: Vec<u32>,
}

/// The indexes of a replica's operations. At most a step for each maker.
pub(crate) fn places_of(makers: &[Maker], replica: ReplicaId) -> Option<&[u32]>
    ensures { MatchOption result (places_in makers.now replica ≡ [])
        (λ places. places.now ≡ places_in makers.now replica) }
{
    for maker in makers {
        if maker.replica == replica {
            return Some(&maker.places);
        }
    }
    None
}

/// How many of these indexes, which rise, are below another one. A search by halves.
pub(crate) fn count_below(places: &[u32], index: usize) -> usize
    requires { IsNonDecreasing places.now }
    ensures bound { result ≤ length places.now }
    ensures place { IsPartitionPoint (λ p. nat_lt p index ≡ true) (λ p. nat_lt p index ≡ false)
        places.now result }
{
    places.partition_point(|place| (*place as usize) < index)
}

/// Which of the makers a replica is, or `None` where it is none of them.
fn place(makers: &[Maker], replica: ReplicaId) -> Option<usize>
    ensures { result ≡ maker_place makers.now replica }
{
    for (i, maker) in makers.iter().enumerate() {
        if maker.replica == replica {
            return Some(i);
        }
    }
    None
}

/// Makes room for `count` more operations of a replica. An error is out of memory (1).
pub(crate) fn reserve(
    makers: &mut Vec<Maker>,
    alloc: Global,
    replica: ReplicaId,
    count: usize,
) -> Result<(), AllocError>
    ensures same { (r : ℕ) → places_in makers.new.items r ≡ places_in makers.old.items r }
    ensures room { OnOk result (count ≤ room_of makers.new.items replica) }
{
    match place(makers, replica) {
        Some(at) => {
            let maker = &mut makers[at];
            maker.places.reserve(count)
        }
        None => {
            let places = Vec::with_capacity(alloc, count)?;
            makers.push(Maker { replica, places })?;
            Ok(())
        }
    }
}

/// Puts the index of a replica's next operation behind its others. There is room for it.
pub(crate) fn put(makers: &mut Vec<Maker>, replica: ReplicaId, index: u32)
    requires { 0 < room_of makers.old.items replica }
    ensures own { places_in makers.new.items replica
        ≡ places_in makers.old.items replica ++ index ∷ [] }
    ensures others { (r : ℕ) → r ≢ replica
        → places_in makers.new.items r ≡ places_in makers.old.items r }
    ensures room { room_of makers.old.items replica ≤ room_of makers.new.items replica + 1 }
{
    match place(makers, replica) {
        Some(at) => {
            let maker = &mut makers[at];
            match maker.places.push(index) {
                Ok(()) => {}
                Err(_) => unreachable!(),
            }
        }
        None => unreachable!(),
    }
}
