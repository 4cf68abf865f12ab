//! The chunks of one replica's characters.
use op_ids::{OpId, ReplicaId};
use std::alloc::AllocError;

/// The characters of one replica by their counters, which rise.
#[derive(Debug, Drop)]
pub struct Track {
    replica: ReplicaId,
    spots: Vec<Spot>,
}

/// A character's counter, of which the low 32 bits, and the serial number of its chunk.
#[derive(Clone, Copy, Debug)]
struct Spot {
    counter: u32,
    serial: u32,
}

/// The same tracks again. An error is out of memory (1). A step for each, whose characters are
/// copied as memory.
pub(crate) fn copied(tracks: &Vec<Track>) -> Result<Vec<Track>, AllocError> {
    let alloc = *tracks.allocator();
    let mut copied = Vec::with_capacity(alloc, tracks.len())?;
    for track in tracks {
        copied.push(Track {
            replica: track.replica,
            spots: Vec::from_slice(alloc, &track.spots)?,
        })?;
    }
    Ok(copied)
}

/// Notes the chunk of a character. An error is out of memory (1). A step or two where it is its
/// replica's last one or its replica inserts alone, else a binary search.
pub(crate) fn note(tracks: &mut Vec<Track>, id: OpId, serial: u32) -> Result<(), AllocError> {
    let i = index_of(tracks, id.replica())?;
    match tracks.get_mut(i) {
        Some(track) => put(&mut track.spots, spot_of(id, serial)),
        None => Ok(()),
    }
}

/// Notes the chunk of a character that isn't noted, behind all others of its replica: `sort` brings
/// them in order. An error is out of memory (1).
pub(crate) fn gather(tracks: &mut Vec<Track>, id: OpId, serial: u32) -> Result<(), AllocError> {
    let i = index_of(tracks, id.replica())?;
    if let Some(track) = tracks.get_mut(i) {
        track.spots.push(spot_of(id, serial))?;
    }
    Ok(())
}

/// Brings the characters of each replica in the order of their counters.
pub(crate) fn sort(tracks: &mut [Track]) {
    for track in tracks.iter_mut() {
        track.spots.sort_unstable_by_key(|spot| spot.counter);
    }
}

/// Which of these tracks is a replica's; a new one, if none is.
fn index_of(tracks: &mut Vec<Track>, replica: ReplicaId) -> Result<usize, AllocError> {
    for (i, track) in tracks.iter().enumerate() {
        if track.replica == replica {
            return Ok(i);
        }
    }
    let spots = Vec::new(*tracks.allocator());
    tracks.push(Track { replica, spots })?;
    Ok(tracks.len().saturating_sub(1))
}

fn spot_of(id: OpId, serial: u32) -> Spot {
    Spot {
        counter: low(id.counter()),
        serial,
    }
}

/// The serial number of the chunk in which a character should be.
pub(crate) fn hinted(tracks: &[Track], id: &OpId) -> Option<u32> {
    for track in tracks {
        if track.replica == id.replica() {
            let i = found(&track.spots, low(id.counter()))?;
            return Some(track.spots.get(i)?.serial);
        }
    }
    None
}

/// Puts a character in its place among those of its replica, or notes its chunk anew.
fn put(spots: &mut Vec<Spot>, spot: Spot) -> Result<(), AllocError> {
    if is_last(spots, spot.counter) {
        spots.push(spot)?;
        return Ok(());
    }
    match found(spots, spot.counter) {
        Some(i) => {
            if let Some(old) = spots.get_mut(i) {
                old.serial = spot.serial;
            }
        }
        None => {
            let at = spots.partition_point(|other| other.counter < spot.counter);
            spots.insert(at, spot)?;
        }
    }
    Ok(())
}

/// Whether a counter is greater than all of these.
fn is_last(spots: &[Spot], counter: u32) -> bool {
    match spots.last() {
        Some(last) => last.counter < counter,
        None => true,
    }
}

/// Which of these characters has a counter.
fn found(spots: &[Spot], counter: u32) -> Option<usize> {
    let guess = counter.saturating_sub(spots.first()?.counter) as usize;
    if let Some(spot) = spots.get(guess) {
        if spot.counter == counter {
            return Some(guess);
        }
    }
    spots
        .binary_search_by_key(&counter, |spot| spot.counter)
        .ok()
}

/// The low 32 bits of a counter.
fn low(counter: u64) -> u32 {
    (counter % 4_294_967_296) as u32
}
