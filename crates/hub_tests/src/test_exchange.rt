//! Three peers that exchange edits of two documents.
use crate::replica_asks::{Row, Wish};
use crate::test_asks::{count_right, peers};
use crate::test_edits::{edit_of, refusal};
use crate::test_merges::merge_all;
use replica_core::Replica;
use std::alloc::Global;
use std::process::Abort;

/// What a case shows, and its rows.
pub type MergedCase = (&'static str, &'static [Row]);

/// Plays the rows of each case on three peers that typed, removed and marked in two documents, and
/// one without operations: of the 304 operations the first peer has all. Where a row isn't answered
/// as it says, it fails with the case and the number of the rows before that one.
pub fn plays_merged(rt: &(impl Abort + AllocGlobal), cases: &[MergedCase]) {
    for (name, rows) in cases {
        assert_eq!(rt; count_right_merged(rt.alloc(), rows), rows.len(), "{name}");
    }
}

fn count_right_merged(alloc: Global, rows: &[Row]) -> usize {
    match merged(alloc) {
        Some(mut peers) => count_right(alloc, &mut peers, rows),
        None => 0,
    }
}

/// Three peers that exchanged edits of two documents, six times, none of which was refused, and one
/// without operations.
fn merged(alloc: Global) -> Option<Vec<Replica>> {
    let mut peers = peers(alloc, &[1, 2, 3, 1])?;
    make(alloc, &mut peers, 0, 1, Wish::Insert(0, "abcdefgh"))?;
    make(alloc, &mut peers, 0, 2, Wish::Insert(0, "ijklmnop"))?;
    merge_all(alloc, &mut peers, 1, 0)?;
    merge_all(alloc, &mut peers, 2, 0)?;
    for at in 0u32..6 {
        exchange(alloc, &mut peers, at)?;
    }
    Some(peers)
}

/// Edits both documents of three peers, and gives each operations of the others.
fn exchange(alloc: Global, peers: &mut Vec<Replica>, at: u32) -> Option<()> {
    for (peer, place) in [(0, at), (1, at / 2), (2, 4)] {
        edit_at(alloc, peers, peer, 1, place)?;
        edit_at(alloc, peers, peer, 2, place)?;
    }
    for (to, from) in [(0, 1), (0, 2), (1, 0), (2, 0)] {
        merge_all(alloc, peers, to, from)?;
    }
    Some(())
}

/// Edits a document of a peer at an index: an insert, a delete and a mark.
fn edit_at(alloc: Global, peers: &mut Vec<Replica>, peer: usize, doc: u32, at: u32) -> Option<()> {
    make(alloc, peers, peer, doc, Wish::Insert(at, "abcde"))?;
    make(alloc, peers, peer, doc, Wish::Delete(at, 2))?;
    make(alloc, peers, peer, doc, Wish::Mark(1, 4))
}

/// Makes an edit that isn't refused.
fn make(alloc: Global, peers: &mut Vec<Replica>, peer: usize, doc: u32, wish: Wish) -> Option<()> {
    match refusal(peers.get_mut(peer)?, edit_of(alloc, doc, None, &wish))? {
        0 => Some(()),
        _ => None,
    }
}
