//! How many bytes the record of an operation takes: all that works it out without the record stands
//! here.
ghost use Rattle.std.specs.Prelude.{◌≡◌, ◌+◌, ◌≤◌, if◌then◌else◌};
ghost use Rattle.fixed_numbers.specs.declared.limits.TheConstants.{MAX_REPLICAS};
ghost use Rattle.op_model.specs.Records.{head_length as head_length_of, record_length as length_of};
ghost use Rattle.op_model.specs.Records.{body_length as body_length_of, mark_length as mark_length_of};
ghost use Rattle.op_model.specs.Records.{key_length as key_length_of};
ghost use Rattle.op_model.specs.Records.{start_length as start_length_of, end_length as end_length_of};

use crate::anchor::{End, Start};
use crate::mark::{Mark, MarkKey};
use crate::op::{Body, Op};

/// The bytes of an id, which is all that a remove has beside its head.
pub const ID_LENGTH: u64 = 24;

/// How many bytes the head of a record takes, where its operation has `deps` deps: all but the
/// content. Constant.
pub fn head_length(deps: usize) -> u64
    requires { deps ≤ MAX_REPLICAS + 1 }
    ensures value { result ≡ head_length_of deps }
    ensures within { result ≤ 442 }
{
    34 + ID_LENGTH * deps as u64
}

/// How many bytes a token takes: sixteen, or none where there is none. Constant.
pub fn token_length(has_token: bool) -> u64
    ensures { result ≡ (if has_token then 16 else 0) }
{
    if has_token { 16 } else { 0 }
}

/// How many bytes an origin, a start or an end takes: a tag, and an id where it names a character.
/// Constant.
pub fn place_length(has_id: bool) -> u64
    ensures { result ≡ (if has_id then 25 else 1) }
{
    if has_id { 1 + ID_LENGTH } else { 1 }
}

/// How many bytes the content of an insert takes: its origin, and four for its character. Constant.
pub fn insert_length(has_origin: bool) -> u64
    ensures { result ≡ (if has_origin then 29 else 5) }
{
    place_length(has_origin) + 4
}

impl Op {
    /// How many bytes the operation's record takes: at most 1,511. Constant.
    pub fn record_length(&self) -> u64
        ensures value { result ≡ length_of self.now }
        ensures within { result ≤ 1511 }
    {
        head_length(self.deps.len())
            + token_length(self.token.is_some())
            + self.body.record_length()
    }
}

impl Body {
    /// How many bytes the body takes in a record.
    fn record_length(&self) -> u64
        ensures value { result ≡ body_length_of self.now }
        ensures within { result ≤ 1077 }
    {
        match self {
            Body::Insert { origin, .. } => insert_length(origin.is_some()),
            Body::Remove { .. } => ID_LENGTH,
            Body::AddMark { mark, start, end } => mark.record_length()
                + start.record_length()
                + end.record_length(),
            Body::RemoveMark { key, start, end } => key.record_length()
                + start.record_length()
                + end.record_length(),
        }
    }
}

impl Mark {
    /// How many bytes the mark takes in a record. Constant.
    pub fn record_length(&self) -> u64
        ensures value { result ≡ mark_length_of self.now }
        ensures within { result ≤ 1027 }
    {
        match self {
            Mark::Strong | Mark::Em => 1,
            Mark::Link(url) => 3 + url.as_str().len() as u64,
            Mark::Comment(_) => 17,
        }
    }
}

impl MarkKey {
    /// How many bytes the key takes in a record. Constant.
    pub fn record_length(&self) -> u64
        ensures value { result ≡ key_length_of self.now }
        ensures within { result ≤ 17 }
    {
        match self {
            MarkKey::Strong | MarkKey::Em | MarkKey::Link => 1,
            MarkKey::Comment(_) => 17,
        }
    }
}

impl Start {
    /// How many bytes the start takes in a record.
    fn record_length(&self) -> u64
        ensures value { result ≡ start_length_of self.now }
        ensures within { result ≤ 25 }
    {
        match self {
            Start::OfText => place_length(false),
            Start::From(_) => place_length(true),
        }
    }
}

impl End {
    /// How many bytes the end takes in a record.
    fn record_length(&self) -> u64
        ensures value { result ≡ end_length_of self.now }
        ensures within { result ≤ 25 }
    {
        match self {
            End::To(_) => place_length(true),
            End::OfText => place_length(false),
        }
    }
}
