//! The fields of a request.
ghost use Rattle.std.specs.Prelude.{◌≡◌, ◌||◌, ◌++◌, map, string_bytes};
ghost use Rattle.std.specs.List.{list_any, list_all};
ghost use Rattle.std.specs.Str.{bytes_eq};
ghost use Rattle.std.specs.BTreeMap.{keys};
ghost use Rattle.serde_json.specs.Find.{get};
ghost use Rattle.serde_json.specs.View.{view};
ghost use Rattle.session_lines.specs.Fields.{Reads, only, as_whole, whole, if_whole, rev_of, count_of};
ghost use Rattle.session_lines.specs.Fields.{at_rev_of, characters_of, kind_of, url_of, comment_of};
ghost use Rattle.session_lines.specs.Fields.{token_named, token_of};

use crate::kind::Kind;
use crate::refusal::Refusal;
use op_ids::Token;
use op_model::{CommentId, EditText, Url};
use serde_json::{Map, Value};
use std::alloc::Global;
use std::num::NonZeroU32;
use uuid::Uuid;

/// Refuses members of other names than these.
pub(crate) fn only(value: &Value, names: &[&str]) -> Result<(), Refusal>
    ensures { Reads result (only (map (λ name. name.now) names.now) (view value.now)) }
{
    only_both(value, &[], names)
}

/// Refuses members of other names than these and those.
pub(crate) fn only_both(value: &Value, outer: &[&str], own: &[&str]) -> Result<(), Refusal>
    ensures { Reads result
        (only (map (λ name. name.now) outer.now ++ map (λ name. name.now) own.now)
        (view value.now)) }
{
    match value.as_object() {
        Some(members) if are_among(members, outer, own) => Ok(()),
        _ => Err(Refusal::Field),
    }
}

/// Whether each member has one of these names, or one of those.
fn are_among(members: &Map<String, Value>, outer: &[&str], own: &[&str]) -> bool
    ensures { result ≡ list_all
        (λ key. list_any (λ other. bytes_eq other.now (string_bytes key)) outer.now
        || list_any (λ other. bytes_eq other.now (string_bytes key)) own.now)
        (keys members.now) }
{
    members
        .keys()
        .all(|key| is_among_both(key.as_str(), outer, own))
}

/// Whether a name is one of these, or one of those.
fn is_among_both(name: &str, outer: &[&str], own: &[&str]) -> bool
    ensures { result ≡ (list_any (λ other. bytes_eq other.now name.now) outer.now
        || list_any (λ other. bytes_eq other.now name.now) own.now) }
{
    is_among(name, outer) || is_among(name, own)
}

/// Whether a name is one of these.
fn is_among(name: &str, names: &[&str]) -> bool
    ensures { result ≡ list_any (λ other. bytes_eq other.now name.now) names.now }
{
    names.iter().any(|other| *other == name)
}

/// A number from this one to 2^32 - 1, written with no sign, fraction or exponent.
pub(crate) fn as_whole(value: &Value, low: u32) -> Option<u32>
    ensures { result ≡ as_whole low (view value.now) }
{
    let number = value.as_u64()?;
    if number < low as u64 || number > u32::MAX as u64 {
        return None;
    }
    Some(number as u32)
}

/// The field of this name, a whole number from this one on.
pub(crate) fn whole(value: &Value, key: &str, low: u32) -> Result<u32, Refusal>
    ensures { Reads result (whole key.now low (view value.now)) }
{
    match value.get(key) {
        Some(found) => as_whole(found, low).ok_or(Refusal::Field),
        None => Err(Refusal::Field),
    }
}

/// The number of operations that the document has to have, if one is asked for.
pub(crate) fn rev(value: &Value) -> Result<Option<u32>, Refusal>
    ensures { Reads result (rev_of (view value.now)) }
{
    optional(value, "rev")
}

/// The number of operations that the document is to be shown with, if one is asked for.
pub(crate) fn at_rev(value: &Value) -> Result<Option<u32>, Refusal>
    ensures { Reads result (at_rev_of (view value.now)) }
{
    optional(value, "at_rev")
}

/// The field of this name, a whole number, if there is one.
pub(crate) fn optional(value: &Value, key: &str) -> Result<Option<u32>, Refusal>
    ensures { Reads result (if_whole (get key.now (view value.now))) }
{
    match value.get(key) {
        Some(found) => match as_whole(found, 0) {
            Some(number) => Ok(Some(number)),
            None => Err(Refusal::Field),
        },
        None => Ok(None),
    }
}

/// The token that a UUID is, in any of its text forms but nil.
fn token_named(text: &str) -> Option<Token>
    ensures { result ≡ token_named text.now }
{
    match Uuid::parse_str(text) {
        Ok(id) => Token::from_uuid(id),
        Err(_) => None,
    }
}

/// The token of the edit, if it has one.
pub(crate) fn token(value: &Value) -> Result<Option<Token>, Refusal>
    ensures { Reads result (token_of (view value.now)) }
{
    let Some(found) = value.get("token") else {
        return Ok(None);
    };
    let token = found.as_str().and_then(token_named).ok_or(Refusal::Field)?;
    Ok(Some(token))
}

/// How many characters are deleted.
pub(crate) fn count(value: &Value) -> Result<NonZeroU32, Refusal>
    ensures { Reads result (count_of (view value.now)) }
{
    let count = whole(value, "count", 1)?;
    NonZeroU32::new(count).ok_or(Refusal::Field)
}

/// The characters that are inserted. An error is out of memory, or no text of at least one
/// character.
#[tactic(auto, using(std::proofs::lemmas::Str::chars_from_encodes))]
pub(crate) fn characters(alloc: Global, value: &Value) -> Result<EditText, Refusal>
    ensures { Reads result (characters_of (view value.now)) }
{
    let Some(text) = value.get("text").and_then(Value::as_str) else {
        return Err(Refusal::Field);
    };
    let characters = text.chars().collect(alloc)?;
    EditText::new(characters).ok_or(Refusal::Field)
}

/// The kind of mark.
pub(crate) fn kind(value: &Value) -> Result<Kind, Refusal>
    ensures { Reads result (kind_of (view value.now)) }
{
    value
        .get("kind")
        .and_then(Value::as_str)
        .and_then(Kind::named)
        .ok_or(Refusal::Field)
}

/// Where a link leads. An error is out of memory, or no text of 1 to 1,024 bytes.
pub(crate) fn url(alloc: Global, value: &Value) -> Result<Url, Refusal>
    ensures { Reads result (url_of (view value.now)) }
{
    let Some(text) = value.get("url").and_then(Value::as_str) else {
        return Err(Refusal::Field);
    };
    let text = String::from_str(alloc, text)?;
    Url::new(text).ok_or(Refusal::Field)
}

/// The name of a comment, a UUID in any of its text forms.
pub(crate) fn comment(value: &Value) -> Result<CommentId, Refusal>
    ensures { Reads result (comment_of (view value.now)) }
{
    let Some(text) = value.get("id").and_then(Value::as_str) else {
        return Err(Refusal::Field);
    };
    match Uuid::parse_str(text) {
        Ok(id) => Ok(CommentId::read(id.into_bytes())),
        Err(_) => Err(Refusal::Field),
    }
}
