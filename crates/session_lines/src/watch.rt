//! A line that asks to be told of changes.
ghost use Rattle.std.specs.Prelude.{◌≡◌, ◌≢◌, IfOk, IfErr, Ok, Err};
ghost use Rattle.serde_json.specs.View.{view};
ghost use Rattle.session_lines.specs.declared.refusal.Refusal.TheVariants.{Memory};
ghost use Rattle.session_lines.specs.Fields.{Reads};
ghost use Rattle.session_lines.specs.Requests.{watch_named, watch_name};
ghost use Rattle.session_lines.specs.Watches.{all_named, watch_of, watched_by};
ghost use Rattle.session_lines.specs.Watches.{one_asked, several_asked, these_of};

use crate::fields::{only, whole};
use crate::line::read;
use crate::refusal::Refusal;
use crate::several::documents;
use crate::watching::Watching;
use serde_json::Value;
use std::alloc::Global;

/// The documents of whose changes a line without its line feed asks to be told:
/// `{"op":"watch","doc":1}`, `{"op":"watch","docs":[1,2]}` or `{"op":"watch","docs":"all"}`. It is
/// no command, since its session has no other request: whoever serves sessions asks this of a
/// session's first line. `Syntax` (2) where the line isn't read as JSON in UTF-8, `Request` (3)
/// where its `op` isn't "watch", `Field` (4) where it has neither `doc` nor `docs`, both, or
/// another field; its `doc` is no number from 1 to 2^32 - 1, or its `docs` neither "all" nor a list
/// of 1 to 1,024 such numbers. `Memory` (1) where a growth was refused. The time is that of reading
/// the line.
pub fn watch_line(alloc: Global, line: &[u8]) -> Result<Watching, Refusal>
    ensures ok { IfOk result (λ watching. watched_by line.now ≡ Ok watching) }
    ensures err { IfErr result (λ refusal. refusal ≢ Memory
        → watched_by line.now ≡ Err refusal) }
{
    let value = read(alloc, line)?;
    watched(alloc, &value)
}

/// The documents of whose changes a request asks to be told.
fn watched(alloc: Global, value: &Value) -> Result<Watching, Refusal>
    ensures { Reads result (watch_of (view value.now)) }
{
    named(value)?;
    match value.get("docs") {
        Some(docs) => several(alloc, value, docs),
        None => one(value),
    }
}

/// The one document that a request names.
fn one(value: &Value) -> Result<Watching, Refusal>
    ensures { Reads result (one_asked (view value.now)) }
{
    only(value, &["op", "doc"])?;
    let doc = whole(value, "doc", 1)?;
    Ok(Watching::One(doc))
}

/// The documents that a request with these `docs` names.
fn several(alloc: Global, value: &Value, docs: &Value) -> Result<Watching, Refusal>
    ensures { Reads result (several_asked (view value.now) (view docs.now)) }
{
    only(value, &["op", "docs"])?;
    these(alloc, docs)
}

/// Documents, one by one, or all of them.
fn these(alloc: Global, docs: &Value) -> Result<Watching, Refusal>
    ensures { Reads result (these_of (view docs.now)) }
{
    if let Some(name) = docs.as_str() {
        return if is_all(name) {
            Ok(Watching::All)
        } else {
            Err(Refusal::Field)
        };
    }
    let numbers = documents(alloc, docs)?;
    Ok(Watching::These(numbers))
}

/// Whether this is the name of all documents.
fn is_all(name: &str) -> bool
    ensures { result ≡ all_named name.now }
{
    name == "all"
}

/// Refuses a request that doesn't ask to be told of changes.
fn named(value: &Value) -> Result<(), Refusal>
    ensures { Reads result (watch_name (view value.now)) }
{
    value
        .get("op")
        .and_then(Value::as_str)
        .and_then(is_named)
        .ok_or(Refusal::Request)
}

/// Whether this is the name of the request.
fn is_named(name: &str) -> Option<()>
    ensures { result ≡ watch_named name.now }
{
    match name {
        "watch" => Some(()),
        _ => None,
    }
}
