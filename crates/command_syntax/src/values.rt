//! The values of a command line that aren't taken as written.
ghost use Rattle.std.specs.Prelude.{◌≡◌, option_map};
ghost use Rattle.std.specs.List.{list_all};
ghost use Rattle.std.specs.Char.{is_ascii_digit};
ghost use Rattle.command_syntax.specs.Values.{decimal_of, doc_of, every_of, form_of, from_one_of};
ghost use Rattle.command_syntax.specs.Values.{optional_number_of, optional_port_of};
ghost use Rattle.command_syntax.specs.Values.{port_of, replica_of};

use op_ids::ReplicaId;
use span_export::Form;
use uuid::Uuid;

/// The number of a document in decimal digits, from 1 to 2^32 - 1.
pub fn doc(text: &str) -> Option<u32>
    ensures { result ≡ doc_of text.now }
{
    from_one(text)
}

/// How many operations a version has at most, in decimal digits, from 1 to 2^32 - 1. Where it isn't
/// named, it is the greatest of these.
pub fn every(text: Option<&str>) -> Option<u32>
    ensures { result ≡ every_of (option_map (λ text. text.now) text.entry) }
{
    match text {
        None => Some(u32::MAX),
        Some(text) => from_one(text),
    }
}

/// A port in decimal digits, from 1 to 65,535.
pub fn port(text: &str) -> Option<u16>
    ensures { result ≡ port_of text.now }
{
    let port = u16::try_from(number(text)?).ok()?;
    if port == 0 { None } else { Some(port) }
}

/// A port that may be left out: where it is, there is none.
pub fn optional_port(text: Option<&str>) -> Option<Option<u16>>
    ensures { result ≡ optional_port_of (option_map (λ text. text.now) text.entry) }
{
    match text {
        None => Some(None),
        Some(text) => match port(text) {
            Some(port) => Some(Some(port)),
            None => None,
        },
    }
}

/// A number that may be left out: where it is, there is none. In decimal digits, up to 2^32 - 1.
pub fn optional_number(text: Option<&str>) -> Option<Option<u32>>
    ensures { result ≡ optional_number_of (option_map (λ text. text.now) text.entry) }
{
    match text {
        None => Some(None),
        Some(text) => match number(text) {
            Some(number) => Some(Some(number)),
            None => None,
        },
    }
}

/// The form of an export, with breaks of the line in place of paragraphs or not. Where none is
/// named, it is the text alone.
pub fn form(name: Option<&str>, breaks: bool) -> Option<Form>
    ensures { result ≡ form_of (option_map (λ name. name.now) name.entry) breaks }
{
    match name {
        None => Some(Form::Text),
        Some(name) => Form::named(name, breaks),
    }
}

/// A number in decimal digits, from 1 to 2^32 - 1.
fn from_one(text: &str) -> Option<u32>
    ensures { result ≡ from_one_of text.now }
{
    match number(text) {
        Some(0) | None => None,
        Some(number) => Some(number),
    }
}

/// A number in decimal digits, up to 2^32 - 1.
fn number(text: &str) -> Option<u32>
    ensures { result ≡ decimal_of text.now }
{
    if !is_decimal(text) {
        return None;
    }
    text.parse::<u32>().ok()
}

/// Whether all characters are decimal digits.
fn is_decimal(text: &str) -> bool
    ensures { result ≡ list_all is_ascii_digit text.now }
{
    text.bytes().all(|byte| byte.is_ascii_digit())
}

/// The replica that a UUID names, in any of its text forms but nil.
pub fn replica(text: &str) -> Option<ReplicaId>
    ensures { result ≡ replica_of text.now }
{
    match Uuid::parse_str(text) {
        Ok(id) => ReplicaId::from_uuid(id),
        Err(_) => None,
    }
}
