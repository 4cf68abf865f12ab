//! How many bytes an edit's records take.
ghost use Rattle.std.specs.Prelude.{◌≡◌, ℕ, ◌+◌, ◌-◌, ◌*◌, ◌≤◌, ◌<◌, true, List, length};
ghost use Rattle.std.specs.Prelude.{if◌then◌else◌};
ghost use Rattle.fixed_numbers.specs.declared.limits.TheConstants.{MAX_EDIT, MAX_REPLICAS};
ghost use Rattle.doc_core.specs.Standing.{StandsFor};
ghost use Rattle.replica_core.specs.Docs.{doc_number};
ghost use Rattle.op_model.specs.declared.op.Op.{Op};
ghost use Rattle.op_model.specs.Causality.{clock_of};
ghost use Rattle.op_model.specs.Made.{bodies_of, end_of, is_inside, is_small, made as made_of, origin_of};
ghost use Rattle.op_model.specs.Records.{end_length, head_length as head_length_of, origin_length, stream_length};
ghost use Rattle.op_model.specs.Records.{token_length as token_length_of};
ghost use Rattle.op_model.specs.Text.{visible};
ghost use Rattle.op_model.specs.Waiting.{change_length};
ghost use Rattle.replica_core.specs.Deciding.{lengths};
ghost use Rattle.model_laws.specs.Asking.{IsAskedRight};

use doc_core::Doc;
use op_ids::{Clock, ReplicaId, Token};
use op_model::{
    Change, Edit, ID_LENGTH, MarkKey, head_length, insert_length, place_length, token_length,
};

/// How many bytes the records take that a small edit of a document makes. Takes no memory.
pub(crate) fn made_length(doc: &Doc, clock: &Clock, replica: ReplicaId, edit: &Edit) -> u64
    requires { is_small edit.now.change ≡ true }
    ensures { (ops : List Op) → StandsFor doc.now ops → doc_number doc.now ≡ edit.now.doc
        → clock.now ≡ clock_of ops → IsAskedRight ops edit.now
        → result ≡ stream_length (made_of ops replica edit.now) }
{
    let first = clock.len();
    let later = if clock.get(replica) == 0 {
        first + 1
    } else {
        first
    };
    let count = edit.change.size() as u64;
    heads_length(first, later, count)
        + tokens_length(edit.token, count)
        + bodies_length(doc, &edit.change)
}

/// How many bytes the operations that a small edit of a document makes add to what waits for a
/// commit, where their single records take `bytes`: what two or more characters add is one record.
/// Takes no memory.
pub(crate) fn waiting_length(doc: &Doc, clock: &Clock, edit: &Edit, bytes: u64) -> u64
    requires { is_small edit.now.change ≡ true }
    ensures { (ops : List Op) (replica : ℕ) → StandsFor doc.now ops
        → doc_number doc.now ≡ edit.now.doc → clock.now ≡ clock_of ops → IsAskedRight ops edit.now
        → bytes ≡ stream_length (made_of ops replica edit.now)
        → result ≡ change_length edit.now.change (made_of ops replica edit.now) }
{
    match &edit.change {
        Change::Insert { at, text } => {
            let others = text.as_slice().len() as u64 - 1;
            if others == 0 {
                return bytes;
            }
            head_length(clock.len())
                + tokens_length(edit.token, 1)
                + insert_length(has_origin(doc, *at as usize))
                + 2
                + 4 * others
        }
        Change::Delete { .. } | Change::Mark { .. } | Change::Unmark { .. } => bytes,
    }
}

/// How many bytes the tokens of `count` records take.
fn tokens_length(token: Option<Token>, count: u64) -> u64
    requires small { count ≤ MAX_EDIT }
    ensures value { result ≡ token_length_of token * count }
    ensures small { result < 1000000 }
{
    token_length(token.is_some()) * count
}

/// How many bytes `count` records take without their tokens and contents, where the first has
/// `first` deps, and each later one has `later`.
fn heads_length(first: usize, later: usize, count: u64) -> u64
    requires first { first ≤ MAX_REPLICAS }
    requires later { later ≤ MAX_REPLICAS + 1 }
    requires some { 0 < count }
    requires small { count ≤ MAX_EDIT }
    ensures value { result ≡ head_length_of first + head_length_of later * (count - 1) }
    ensures small { result < 1000000 }
{
    head_length(first) + head_length(later) * (count - 1)
}

/// How many bytes the contents of the records take that a small change of a document makes.
fn bodies_length(doc: &Doc, change: &Change) -> u64
    requires { is_small change.now ≡ true }
    ensures value { (ops : List Op) (replica : ℕ) → StandsFor doc.now ops
        → is_inside (length (visible ops (doc_number doc.now))) change.now ≡ true
        → result ≡ lengths (bodies_of ops replica (doc_number doc.now) change.now) }
    ensures small { result < 1000000 }
{
    match change {
        Change::Insert { at, text } => {
            let later = text.as_slice().len() as u64 - 1;
            insert_length(has_origin(doc, *at as usize)) + insert_length(true) * later
        }
        Change::Delete { count, .. } => ID_LENGTH * count.get() as u64,
        Change::Mark { to, mark, .. } => mark.record_length()
            + place_length(true)
            + place_length(has_end(doc, &mark.key(), *to as usize)),
        Change::Unmark { to, key, .. } => key.record_length()
            + place_length(true)
            + place_length(has_end(doc, key, *to as usize)),
    }
}

/// Whether an insert behind the first `at` characters that a reader sees has an origin.
fn has_origin(doc: &Doc, at: usize) -> bool
    ensures { (ops : List Op) → StandsFor doc.now ops
        → at ≤ length (visible ops (doc_number doc.now))
        → (if result then 25 else 1) ≡ origin_length (origin_of ops (doc_number doc.now) at) }
{
    if at > 0 {
        return true;
    }
    match doc.origin(at) {
        Some(_) => true,
        None => false,
    }
}

/// Whether the end of a mark on the characters before an index is at a character.
fn has_end(doc: &Doc, key: &MarkKey, to: usize) -> bool
    requires { to < 4294967296 }
    ensures { (ops : List Op) → StandsFor doc.now ops → 0 < to
        → to ≤ length (visible ops (doc_number doc.now))
        → (if result then 25 else 1)
        ≡ end_length (end_of (visible ops (doc_number doc.now)) key.now to) }
{
    match key {
        MarkKey::Strong | MarkKey::Em => doc.shows(to + 1),
        MarkKey::Link | MarkKey::Comment(_) => true,
    }
}
