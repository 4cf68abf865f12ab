//! The change that a request makes, by its fields. Its own fields stand beside others: those of a
//! change alone name the document too, those of one among several don't.
ghost use Rattle.std.specs.Prelude.{◌≡◌, map, None};
ghost use Rattle.serde_json.specs.View.{view};
ghost use Rattle.session_lines.specs.Edits.{change_of, insert_of, delete_of, mark_change};
ghost use Rattle.session_lines.specs.Edits.{unmark_change, mark_of, key_of};
ghost use Rattle.session_lines.specs.Fields.{Reads};

use crate::fields::{characters, comment, count, kind, only_both, url};
use crate::kind::Kind;
use crate::refusal::Refusal;
use crate::spot::{Spot, place_at};
use crate::verb::Verb;
use op_model::{Change, Mark, MarkKey};
use placed_edits::{PlacedChange, Spots};
use serde_json::Value;
use std::alloc::Global;

/// The change that a request of this kind makes: `Field` (4) where the kind makes none.
pub(crate) fn change(
    alloc: Global,
    value: &Value,
    verb: Verb,
    outer: &[&str],
) -> Result<PlacedChange, Refusal>
    ensures { Reads result (change_of verb (map (λ name. name.now) outer.now) (view value.now)) }
{
    match verb {
        Verb::Insert => insert(alloc, value, outer),
        Verb::Delete => delete(value, outer),
        Verb::Mark => mark(alloc, value, outer),
        Verb::Unmark => unmark(value, outer),
        _ => Err(Refusal::Field),
    }
}

/// The change of an insert.
fn insert(alloc: Global, value: &Value, outer: &[&str]) -> Result<PlacedChange, Refusal>
    ensures { Reads result (insert_of (map (λ name. name.now) outer.now) (view value.now)) }
{
    only_both(value, outer, &["at", "text"])?;
    let at = place_at(value, "at")?;
    let text = characters(alloc, value)?;
    Ok(at_one(
        Change::Insert {
            at: at.number,
            text,
        },
        at,
    ))
}

/// The change of a delete.
fn delete(value: &Value, outer: &[&str]) -> Result<PlacedChange, Refusal>
    ensures { Reads result (delete_of (map (λ name. name.now) outer.now) (view value.now)) }
{
    only_both(value, outer, &["at", "count"])?;
    let at = place_at(value, "at")?;
    let count = count(value)?;
    Ok(at_one(
        Change::Delete {
            at: at.number,
            count,
        },
        at,
    ))
}

/// The change of a mark.
fn mark(alloc: Global, value: &Value, outer: &[&str]) -> Result<PlacedChange, Refusal>
    ensures { Reads result (mark_change (map (λ name. name.now) outer.now) (view value.now)) }
{
    let mark = added(alloc, value, outer)?;
    let from = place_at(value, "from")?;
    let to = place_at(value, "to")?;
    Ok(at_both(
        Change::Mark {
            from: from.number,
            to: to.number,
            mark,
        },
        from,
        to,
    ))
}

/// The change of an unmark.
fn unmark(value: &Value, outer: &[&str]) -> Result<PlacedChange, Refusal>
    ensures { Reads result (unmark_change (map (λ name. name.now) outer.now) (view value.now)) }
{
    let key = removed(value, outer)?;
    let from = place_at(value, "from")?;
    let to = place_at(value, "to")?;
    Ok(at_both(
        Change::Unmark {
            from: from.number,
            to: to.number,
            key,
        },
        from,
        to,
    ))
}

/// A change with one place.
fn at_one(change: Change, at: Spot) -> PlacedChange
    ensures { result ≡ record {
      change = change;
      spots = record { from = at.place; to = None };
    } }
{
    PlacedChange {
        change,
        spots: Spots {
            from: at.place,
            to: None,
        },
    }
}

/// A change from one place to another.
fn at_both(change: Change, from: Spot, to: Spot) -> PlacedChange
    ensures { result ≡ record {
      change = change;
      spots = record { from = from.place; to = to.place };
    } }
{
    PlacedChange {
        change,
        spots: Spots {
            from: from.place,
            to: to.place,
        },
    }
}

/// The mark that is put on: a URL comes with a link alone, an id with a comment alone.
fn added(alloc: Global, value: &Value, outer: &[&str]) -> Result<Mark, Refusal>
    ensures { Reads result (mark_of (map (λ name. name.now) outer.now) (view value.now)) }
{
    match kind(value)? {
        Kind::Strong => {
            only_both(value, outer, &["from", "to", "kind"])?;
            Ok(Mark::Strong)
        }
        Kind::Em => {
            only_both(value, outer, &["from", "to", "kind"])?;
            Ok(Mark::Em)
        }
        Kind::Link => {
            only_both(value, outer, &["from", "to", "kind", "url"])?;
            Ok(Mark::Link(url(alloc, value)?))
        }
        Kind::Comment => {
            only_both(value, outer, &["from", "to", "kind", "id"])?;
            Ok(Mark::Comment(comment(value)?))
        }
    }
}

/// What is taken off: an id comes with a comment alone.
fn removed(value: &Value, outer: &[&str]) -> Result<MarkKey, Refusal>
    ensures { Reads result (key_of (map (λ name. name.now) outer.now) (view value.now)) }
{
    match kind(value)? {
        Kind::Strong => {
            only_both(value, outer, &["from", "to", "kind"])?;
            Ok(MarkKey::Strong)
        }
        Kind::Em => {
            only_both(value, outer, &["from", "to", "kind"])?;
            Ok(MarkKey::Em)
        }
        Kind::Link => {
            only_both(value, outer, &["from", "to", "kind"])?;
            Ok(MarkKey::Link)
        }
        Kind::Comment => {
            only_both(value, outer, &["from", "to", "kind", "id"])?;
            Ok(MarkKey::Comment(comment(value)?))
        }
    }
}
