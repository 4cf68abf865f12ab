//! Plays the rows of a table on some peers, one after another. A test holds no replica, since each
//! way out past one is what the proof of a test costs. Where something is missing there is no
//! answer, which is never the one that a row wants.
use crate::replica_asks::{Ask, Case, Row};
use crate::test_changes::changes;
use crate::test_edits::{
    edit, edit_of, edits_until_refused, put_length, refusal, settled_after, ticket_rev, together,
};
use crate::test_merges::{brought, has_clock_of, is_same, merge_all, merge_into, open_from};
use crate::test_peers::{acks, has_text, replica_id, spans_of, told, told_to_none};
use replica_core::Replica;
use std::alloc::Global;
use std::process::Abort;

/// Plays the rows of each case on new peers. Where one isn't answered as it says, it fails with the
/// case and the number of the rows before that one.
pub fn plays(rt: &(impl Abort + AllocGlobal), cases: &[Case]) {
    for (name, ids, rows) in cases {
        assert_eq!(rt; count_right_of(rt.alloc(), ids, rows), rows.len(), "{name}");
    }
}

/// How many rows new peers answer as they say before one doesn't.
fn count_right_of(alloc: Global, ids: &[u8], rows: &[Row]) -> usize {
    match peers(alloc, ids) {
        Some(mut peers) => count_right(alloc, &mut peers, rows),
        None => 0,
    }
}

pub fn peers(alloc: Global, ids: &[u8]) -> Option<Vec<Replica>> {
    let mut peers = Vec::new(alloc);
    for last in ids {
        peers.push(Replica::new(alloc, replica_id(*last)?)).ok()?;
    }
    Some(peers)
}

/// How many rows are answered as they say before one isn't.
pub fn count_right(alloc: Global, peers: &mut Vec<Replica>, rows: &[Row]) -> usize {
    let mut count = 0usize;
    for (peer, ask, wanted) in rows {
        if answer(alloc, peers, *peer, ask) != Some(*wanted) {
            return count;
        }
        count = count.saturating_add(1);
    }
    count
}

fn answer(alloc: Global, peers: &mut Vec<Replica>, peer: usize, ask: &Ask) -> Option<usize> {
    match ask {
        Ask::MergeAll(from) => merge_all(alloc, peers, peer, *from),
        Ask::Open(from, first) => open_from(alloc, peers, peer, *from, *first),
        Ask::HasClockOf(other) => has_clock_of(peers, peer, *other),
        Ask::IsSame(other, doc) => is_same(peers, peer, *other, *doc),
        Ask::Merge(..) | Ask::MergeRemove(_) | Ask::MergeNowhere(_) | Ask::MergeSecond(..) => {
            let op = brought(alloc, peers, ask);
            merge_into(peers, peer, op)
        }
        _ => answer_alone(alloc, peers.get_mut(peer)?, ask),
    }
}

/// What a peer answers to what takes no other one.
fn answer_alone(alloc: Global, replica: &mut Replica, ask: &Ask) -> Option<usize> {
    match ask {
        Ask::Edit(wish) => ticket_rev(replica, edit(alloc, None, wish)),
        Ask::EditUnder(token, wish) => ticket_rev(replica, edit(alloc, Some(*token), wish)),
        Ask::Together(wishes) => ticket_rev(replica, together(alloc, wishes)),
        Ask::RefusedAt(wishes) => replica.refused_at(&together(alloc, wishes)?),
        Ask::Refusal(doc, rev, wish) => refusal(replica, edit_of(alloc, *doc, *rev, wish)),
        Ask::EditsUntilRefused(wish) => edits_until_refused(replica, edit(alloc, None, wish)),
        Ask::Put(wish) => put_length(replica, edit(alloc, None, wish)),
        Ask::Settle(wish) => settled_after(replica, edit(alloc, None, wish)),
        Ask::HasText(text) => has_text(alloc, replica, text),
        Ask::Len => Some(replica.list().len()),
        Ask::Rev(doc) => Some(replica.rev(*doc)),
        Ask::Spans => spans_of(replica),
        Ask::Changes(since, turns) => changes(alloc, replica, *since, turns),
        Ask::Tell => told_to_none(alloc, replica),
        Ask::TellBehind(counts) => told(alloc, replica, counts),
        Ask::Ack(end) => Some(acks(replica, *end) as usize),
        _ => None,
    }
}
