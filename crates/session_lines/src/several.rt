//! The fields of a request that list several values, and the side of a place.
ghost use Rattle.std.specs.Prelude.{◌≡◌, ◌&&◌, nat_le};
ghost use Rattle.serde_json.specs.View.{items_view, view};
ghost use Rattle.session_lines.specs.Fields.{Reads, as_whole, or_field};
ghost use Rattle.session_lines.specs.Several.{anchors_of, as_lasting, each, numbers_of};
ghost use Rattle.session_lines.specs.Several.{side_named, side_of};
ghost use Rattle.session_lines.specs.Watches.{documents_of};

use crate::anchor_text::lasting;
use crate::fields::as_whole;
use crate::lasting_list::LastingList;
use crate::numbers::Numbers;
use crate::refusal::Refusal;
use op_model::{Anchor, Lasting, Neighbour};
use serde_json::Value;
use std::alloc::Global;

/// How many places one request asks for at most.
pub const MAX_PLACES: usize = 256;

/// How many documents one request watches at most: as many as a file has.
pub const MAX_WATCHED: usize = 1_024;

/// The numbers of visible characters before some places. An error is out of memory, or no list of 1
/// to 256 whole numbers.
pub(crate) fn numbers(alloc: Global, value: &Value) -> Result<Numbers, Refusal>
    ensures { Reads result (numbers_of (view value.now)) }
{
    let Some(items) = value.get("at").and_then(Value::as_array) else {
        return Err(Refusal::Field);
    };
    let numbers = each_number(alloc, items, 0)?;
    if !is_some(numbers.as_slice().len()) {
        return Err(Refusal::Field);
    }
    Ok(numbers)
}

/// Some places that last. An error is out of memory, or no list of 1 to 256 texts of such places.
pub(crate) fn anchors(alloc: Global, value: &Value) -> Result<LastingList, Refusal>
    ensures { Reads result (anchors_of (view value.now)) }
{
    let Some(items) = value.get("anchors").and_then(Value::as_array) else {
        return Err(Refusal::Field);
    };
    let anchors = each_anchor(alloc, items)?;
    if !is_some(anchors.as_slice().len()) {
        return Err(Refusal::Field);
    }
    Ok(anchors)
}

/// The documents that are watched. An error is out of memory, or no list of 1 to 1,024 whole
/// numbers from 1 on.
pub(crate) fn documents(alloc: Global, value: &Value) -> Result<Numbers, Refusal>
    ensures { Reads result (documents_of (view value.now)) }
{
    let Some(items) = value.as_array() else {
        return Err(Refusal::Field);
    };
    let numbers = each_number(alloc, items, 1)?;
    let count = numbers.as_slice().len();
    if count < 1 || MAX_WATCHED < count {
        return Err(Refusal::Field);
    }
    Ok(numbers)
}

/// The neighbour that places stay with.
pub(crate) fn side(value: &Value) -> Result<Neighbour, Refusal>
    ensures { Reads result (side_of (view value.now)) }
{
    value
        .get("side")
        .and_then(Value::as_str)
        .and_then(neighbour)
        .ok_or(Refusal::Field)
}

/// The neighbour of this name, if there is one.
fn neighbour(name: &str) -> Option<Neighbour>
    ensures { result ≡ side_named name.now }
{
    match name {
        "previous" => Some(Neighbour::Previous),
        "next" => Some(Neighbour::Next),
        _ => None,
    }
}

/// Whether so many places are asked for by one request: from 1 to 256.
fn is_some(count: usize) -> bool
    ensures { result ≡ (nat_le 1 count && nat_le count MAX_PLACES) }
{
    1 <= count && count <= MAX_PLACES
}

/// All of these values as whole numbers from this one on.
fn each_number(alloc: Global, items: &[Value], low: u32) -> Result<Numbers, Refusal>
    ensures { Reads result (or_field (each (as_whole low) (items_view items.now))) }
{
    let mut numbers = Vec::with_capacity(alloc, items.len())?;
    for item in items {
        let Some(number) = as_whole(item, low) else {
            return Err(Refusal::Field);
        };
        numbers.push(number)?;
    }
    Ok(Numbers::from(numbers))
}

/// A place that lasts, as a text.
pub(crate) fn as_lasting(value: &Value) -> Option<Lasting>
    ensures { result ≡ as_lasting (view value.now) }
{
    value.as_str().and_then(lasting)
}

/// All of these values as places that last.
fn each_anchor(alloc: Global, items: &[Value]) -> Result<LastingList, Refusal>
    ensures { Reads result (or_field (each as_lasting (items_view items.now))) }
{
    // The kit's borrow checker looks up the types that a place holds by the names in this function.
    let _: Option<Anchor> = None;
    let mut anchors = Vec::with_capacity(alloc, items.len())?;
    for item in items {
        let Some(anchor) = as_lasting(item) else {
            return Err(Refusal::Field);
        };
        anchors.push(anchor)?;
    }
    Ok(LastingList::from(anchors))
}
