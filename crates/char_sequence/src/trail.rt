//! The places of one replica's characters in a weave.
use crate::cell_list::CellList;
use op_ids::{OpId, ReplicaId};
use std::alloc::{AllocError, Global};

/// The places of the characters of one replica, in the order in which they came. Since a replica
/// counts up, a character is found by its counter. It is a hint, which whoever takes it checks.
#[derive(Debug, Drop)]
pub struct Trail {
    replica: ReplicaId,
    places: Vec<u32>,
}

/// Notes that a replica's next character is at a place. An error is out of memory (1).
pub(crate) fn note(
    trails: &mut Vec<Trail>,
    alloc: Global,
    replica: ReplicaId,
    place: u32,
) -> Result<(), AllocError> {
    for trail in trails.iter_mut() {
        if trail.replica == replica {
            trail.places.push(place)?;
            return Ok(());
        }
    }
    let mut places = Vec::new(alloc);
    places.push(place)?;
    trails.push(Trail { replica, places })?;
    Ok(())
}

/// The place where a character should be, counted from 1, or 0. A few steps where its replica
/// inserts alone, else a binary search among its characters.
pub(crate) fn hinted(trails: &[Trail], cells: &CellList, id: &OpId) -> usize {
    for trail in trails {
        if trail.replica == id.replica() {
            return searched(&trail.places, cells, id.counter());
        }
    }
    0
}

/// Of these places, whose counters rise, the one with a counter, or 0.
fn searched(places: &[u32], cells: &CellList, counter: u64) -> usize {
    let first = match places.first() {
        Some(place) => counter_at(cells, *place),
        None => return 0,
    };
    if let Some(place) = places.get(counter.saturating_sub(first) as usize) {
        if counter_at(cells, *place) == counter {
            return *place as usize;
        }
    }
    match places.binary_search_by_key(&counter, |place| counter_at(cells, *place)) {
        Ok(i) => places[i] as usize,
        Err(_) => 0,
    }
}

/// The counter of the character at a place, or 0.
fn counter_at(cells: &CellList, place: u32) -> u64 {
    match cells.get((place as usize).saturating_sub(1)) {
        Some(cell) => cell.id.counter(),
        None => 0,
    }
}
