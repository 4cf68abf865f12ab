//! The requests that look for a text, or read a document in another form.
ghost use Rattle.serde_json.specs.View.{view};
ghost use Rattle.session_lines.specs.Fields.{Reads};
ghost use Rattle.session_lines.specs.Reading.{breaks_of, export_asked, find_asked, form_of};
ghost use Rattle.session_lines.specs.Reading.{from_of, sought_of};

use crate::command::Command;
use crate::fields::{characters, only, optional, whole};
use crate::refusal::Refusal;
use fixed_numbers::limits::MAX_EDIT;
use op_model::EditText;
use serde_json::Value;
use span_export::Form;
use std::alloc::Global;

/// The request where a text stands.
pub(crate) fn find(alloc: Global, value: &Value) -> Result<Command, Refusal>
    ensures { Reads result (find_asked (view value.now)) }
{
    only(value, &["op", "doc", "text", "from"])?;
    let doc = whole(value, "doc", 1)?;
    let text = sought(alloc, value)?;
    let from = from(value)?;
    Ok(Command::Find { doc, text, from })
}

/// The request for a document as other programs read it.
pub(crate) fn export(value: &Value) -> Result<Command, Refusal>
    ensures { Reads result (export_asked (view value.now)) }
{
    only(value, &["op", "doc", "to", "breaks"])?;
    let doc = whole(value, "doc", 1)?;
    let form = form(value)?;
    Ok(Command::Export { doc, form })
}

/// The characters that are looked for. An error is out of memory, or no text of 1 to 256
/// characters.
fn sought(alloc: Global, value: &Value) -> Result<EditText, Refusal>
    ensures { Reads result (sought_of (view value.now)) }
{
    let text = characters(alloc, value)?;
    if text.as_slice().len() > MAX_EDIT {
        return Err(Refusal::Field);
    }
    Ok(text)
}

/// The number of characters from which on a text is looked for: 0 if none is asked for.
fn from(value: &Value) -> Result<u32, Refusal>
    ensures { Reads result (from_of (view value.now)) }
{
    match optional(value, "from")? {
        Some(from) => Ok(from),
        None => Ok(0),
    }
}

/// The form that a document is asked for in.
fn form(value: &Value) -> Result<Form, Refusal>
    ensures { Reads result (form_of (view value.now)) }
{
    let breaks = breaks(value)?;
    match value.get("to").and_then(Value::as_str) {
        Some(name) => Form::named(name, breaks).ok_or(Refusal::Field),
        None => Err(Refusal::Field),
    }
}

/// Whether breaks of the line are asked for in place of paragraphs: not if nothing is said of them.
fn breaks(value: &Value) -> Result<bool, Refusal>
    ensures { Reads result (breaks_of (view value.now)) }
{
    match value.get("breaks") {
        Some(found) => found.as_bool().ok_or(Refusal::Field),
        None => Ok(false),
    }
}
