//! The text of a place that lasts, as it is read.
ghost use Rattle.std.specs.Prelude.{◌≡◌, ◌<◌, ◌≤◌, IfSome};
ghost use Rattle.fixed_numbers.specs.declared.limits.TheConstants.{MAX_COUNTER};
ghost use Rattle.session_lines.specs.Anchors.{beside_named, counted, counter_named, id_named};
ghost use Rattle.session_lines.specs.Anchors.{lasting_named, replica_named};

use fixed_numbers::limits::MAX_COUNTER;
use op_ids::{OpId, ReplicaId};
use op_model::{Anchor, Lasting};
use uuid::Uuid;

/// How many bytes stand after a counter: an `@`, and a hyphenated UUID.
const NAME: usize = 37;

/// The place of this text, if it is one's.
pub(crate) fn lasting(text: &str) -> Option<Lasting>
    ensures { result ≡ lasting_named text.now }
{
    match text {
        "start" => Some(Lasting::StartOfText),
        "end" => Some(Lasting::EndOfText),
        _ => beside(text.as_bytes()),
    }
}

/// The place just after a character, or just before it.
fn beside(bytes: &[u8]) -> Option<Lasting>
    ensures { result ≡ beside_named bytes.now }
{
    let (side, text) = bytes.split_first()?;
    let id = id(text)?;
    match side {
        b'a' => Some(Lasting::Beside(Anchor::After(id))),
        b'b' => Some(Lasting::Beside(Anchor::Before(id))),
        _ => None,
    }
}

/// The id that a counter, an `@` and a hyphenated UUID name.
fn id(bytes: &[u8]) -> Option<OpId>
    ensures { result ≡ id_named bytes.now }
{
    if bytes.len() < NAME {
        return None;
    }
    let at = bytes.len() - NAME;
    if bytes[at] != b'@' {
        return None;
    }
    let counter = counter(&bytes[..at])?;
    let replica = replica(&bytes[at + 1..])?;
    OpId::try_new(counter, replica)
}

/// The counter that these digits are: without a zero in front, from 1 to 2^48 - 1.
fn counter(bytes: &[u8]) -> Option<u64>
    ensures value { result ≡ counter_named bytes.now }
    ensures range { IfSome result (λ n. (0 < n) × (n ≤ MAX_COUNTER)) }
{
    match bytes {
        [] | [b'0', ..] => None,
        _ => {
            let counter = digits(bytes)?;
            if counter == 0 || counter > MAX_COUNTER {
                return None;
            }
            Some(counter)
        }
    }
}

/// The number that these digits are, unless all but the last one are more than a counter.
fn digits(bytes: &[u8]) -> Option<u64>
    ensures { result ≡ counted 0 bytes.now }
{
    let mut number = 0;
    for byte in bytes {
        if *byte < b'0' || *byte > b'9' || number > MAX_COUNTER {
            return None;
        }
        number = 10 * number + (*byte - b'0') as u64;
    }
    Some(number)
}

/// The replica that a UUID names, unless it is nil.
fn replica(bytes: &[u8]) -> Option<ReplicaId>
    ensures { result ≡ replica_named bytes.now }
{
    match Uuid::try_parse_ascii(bytes) {
        Ok(id) => ReplicaId::from_uuid(id),
        Err(_) => None,
    }
}
