//! The request for several edits of a document at once.
ghost use Rattle.std.specs.Prelude.{◌≡◌, ◌≢◌, IfOk, IfErr, Ok, Err};
ghost use Rattle.serde_json.specs.View.{items_view, view};
ghost use Rattle.session_lines.specs.Edits.{edits_asked, listed_change, listed_changes};
ghost use Rattle.session_lines.specs.Fields.{Reads};
ghost use Rattle.session_lines.specs.declared.refusal.Refusal.TheVariants.{Memory};

use crate::command::Command;
use crate::fields::{only, rev, token, whole};
use crate::one_change::change;
use crate::refusal::Refusal;
use crate::verb::Verb;
use op_model::{Action, Change, Edit};
use placed_edits::{PlacedAction, PlacedChange, Spots};
use serde_json::Value;
use std::alloc::Global;

/// The request for several edits at once: the document, the number of operations that it has to
/// have and the token stand beside the list of them, and the changes alone in it. An error is out
/// of memory, or a broken field of the request or of any of its 1 to 1,024 edits.
pub(crate) fn edits(alloc: Global, value: &Value) -> Result<Command, Refusal>
    ensures { Reads result (edits_asked (view value.now)) }
{
    only(value, &["op", "doc", "rev", "token", "edits"])?;
    let doc = whole(value, "doc", 1)?;
    let rev = rev(value)?;
    let token = token(value)?;
    let Some(items) = value.get("edits").and_then(Value::as_array) else {
        return Err(Refusal::Field);
    };
    let Some((first, others)) = items.split_first() else {
        return Err(Refusal::Field);
    };
    let PlacedChange { change, spots } = listed(alloc, first)?;
    let others = each_listed(alloc, others)?;
    let edit = Edit {
        doc,
        rev,
        token,
        change,
    };
    let action = Action::new(edit, others.changes).ok_or(Refusal::Field)?;
    Ok(Command::Edit(PlacedAction::new(action, spots, others.spots)))
}

/// One of several changes. An error is out of memory, no change, or a field that it doesn't have.
fn listed(alloc: Global, value: &Value) -> Result<PlacedChange, Refusal>
    ensures { Reads result (listed_change (view value.now)) }
{
    let verb = value
        .get("op")
        .and_then(Value::as_str)
        .and_then(Verb::named)
        .ok_or(Refusal::Field)?;
    change(alloc, value, verb, &["op"])
}

/// Several changes, and the places of each.
#[derive(Drop)]
struct Several {
    changes: Vec<Change>,
    spots: Vec<Spots>,
}

/// All of these values as changes, in order.
fn each_listed(alloc: Global, items: &[Value]) -> Result<Several, Refusal>
    ensures ok { IfOk result (λ several. listed_changes (items_view items.now)
        ≡ Ok (record { changes = several.changes.items; spots = several.spots.items })) }
    ensures err { IfErr result (λ refusal. refusal ≢ Memory
        → listed_changes (items_view items.now) ≡ Err refusal) }
{
    let mut changes = Vec::with_capacity(alloc, items.len())?;
    let mut places = Vec::with_capacity(alloc, items.len())?;
    for item in items {
        let PlacedChange { change, spots } = listed(alloc, item)?;
        changes.push(change)?;
        places.push(spots)?;
    }
    Ok(Several {
        changes,
        spots: places,
    })
}
