//! What a request asks for, by its fields.
ghost use Rattle.serde_json.specs.View.{view};
ghost use Rattle.session_lines.specs.Edits.{edit_asked};
ghost use Rattle.session_lines.specs.Fields.{Reads};
ghost use Rattle.session_lines.specs.Requests.{verb_of, request_of};
ghost use Rattle.session_lines.specs.Requests.{text_asked, anchors_asked, bare_asked, changes_asked};
ghost use Rattle.session_lines.specs.Requests.{places_asked, spans_asked, versions_asked};

use crate::command::Command;
use crate::edits::edits;
use crate::fields::{at_rev, only, rev, token, whole};
use crate::one_change::change;
use crate::reading::{export, find};
use crate::refusal::Refusal;
use crate::several::{self, numbers, side};
use crate::verb::Verb;
use op_model::{Action, Edit};
use placed_edits::PlacedAction;
use serde_json::Value;
use std::alloc::Global;

/// The command of a request.
pub(crate) fn request(alloc: Global, value: &Value) -> Result<Command, Refusal>
    ensures { Reads result (request_of (view value.now)) }
{
    let verb = verb(value)?;
    match verb {
        Verb::Insert | Verb::Delete | Verb::Mark | Verb::Unmark => edit(alloc, value, verb),
        Verb::Edits => edits(alloc, value),
        Verb::Text => text(value),
        Verb::Spans => spans(value),
        Verb::Versions => versions(value),
        Verb::Changes => changes(value),
        Verb::Anchors => anchors(alloc, value),
        Verb::Places => places(alloc, value),
        Verb::Find => find(alloc, value),
        Verb::Export => export(value),
        Verb::Status => bare(value, Command::Status),
        Verb::Peers => bare(value, Command::Peers),
        Verb::Documents => bare(value, Command::Documents),
        Verb::Room => bare(value, Command::Room),
        Verb::Stop => bare(value, Command::Stop),
    }
}

/// A request that has no field but its name, and asks for this.
fn bare(value: &Value, command: Command) -> Result<Command, Refusal>
    ensures { Reads result (bare_asked command (view value.now)) }
{
    only(value, &["op"])?;
    Ok(command)
}

/// The request for a text, of now or as it was.
fn text(value: &Value) -> Result<Command, Refusal>
    ensures { Reads result (text_asked (view value.now)) }
{
    only(value, &["op", "doc", "at_rev"])?;
    let doc = whole(value, "doc", 1)?;
    let at_rev = at_rev(value)?;
    Ok(Command::Text { doc, at_rev })
}

/// The request for spans, of now or as they were.
fn spans(value: &Value) -> Result<Command, Refusal>
    ensures { Reads result (spans_asked (view value.now)) }
{
    only(value, &["op", "doc", "at_rev"])?;
    let doc = whole(value, "doc", 1)?;
    let at_rev = at_rev(value)?;
    Ok(Command::Spans { doc, at_rev })
}

/// The request for versions.
fn versions(value: &Value) -> Result<Command, Refusal>
    ensures { Reads result (versions_asked (view value.now)) }
{
    only(value, &["op", "doc", "every"])?;
    let doc = whole(value, "doc", 1)?;
    let every = whole(value, "every", 1)?;
    Ok(Command::Versions { doc, every })
}

/// The request what changed.
fn changes(value: &Value) -> Result<Command, Refusal>
    ensures { Reads result (changes_asked (view value.now)) }
{
    only(value, &["op", "doc", "since"])?;
    let doc = whole(value, "doc", 1)?;
    let since = whole(value, "since", 0)?;
    Ok(Command::Changes { doc, since })
}

/// The request for places that last.
fn anchors(alloc: Global, value: &Value) -> Result<Command, Refusal>
    ensures { Reads result (anchors_asked (view value.now)) }
{
    only(value, &["op", "doc", "at", "side"])?;
    let doc = whole(value, "doc", 1)?;
    let at = numbers(alloc, value)?;
    let side = side(value)?;
    Ok(Command::Anchors { doc, at, side })
}

/// The request where places that last stand now.
fn places(alloc: Global, value: &Value) -> Result<Command, Refusal>
    ensures { Reads result (places_asked (view value.now)) }
{
    only(value, &["op", "doc", "anchors"])?;
    let doc = whole(value, "doc", 1)?;
    let anchors = several::anchors(alloc, value)?;
    Ok(Command::Places { doc, anchors })
}

/// Which request is made.
fn verb(value: &Value) -> Result<Verb, Refusal>
    ensures { Reads result (verb_of (view value.now)) }
{
    value
        .get("op")
        .and_then(Value::as_str)
        .and_then(Verb::named)
        .ok_or(Refusal::Request)
}

/// The request for a change alone.
fn edit(alloc: Global, value: &Value, verb: Verb) -> Result<Command, Refusal>
    ensures { Reads result (edit_asked verb (view value.now)) }
{
    let placed = change(alloc, value, verb, &["op", "doc", "rev", "token"])?;
    let doc = whole(value, "doc", 1)?;
    let rev = rev(value)?;
    let token = token(value)?;
    let edit = Edit {
        doc,
        rev,
        token,
        change: placed.change,
    };
    let action = Action::one(alloc, edit);
    Ok(Command::Edit(PlacedAction::new(action, placed.spots, Vec::new(alloc))))
}
