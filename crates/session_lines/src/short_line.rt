//! The answers that need no memory of their own, put where there is room for them.
ghost use Rattle.std.specs.Prelude.{◌≡◌, ◌++◌, ◌+◌, ◌≤◌, length, decimal, vec_len, vec_capacity};
ghost use Rattle.session_lines.specs.Saying.{said_edited, said_status, said_refused, said_done};
ghost use Rattle.session_lines.specs.Saying.{said_watched};
ghost use Rattle.session_lines.specs.Saying.{said_refused_at, state_word};

use crate::answer::State;
use crate::refusal::Refusal;
use itoa::Buffer;

/// No short answer has more bytes, with its line feed.
pub const SHORT: usize = 128;

/// Puts bytes behind what is there, where there is room for them.
fn put(bytes: &[u8], out: &mut Vec<u8>)
    requires { vec_len out.old + length bytes.now ≤ vec_capacity out.old }
    ensures items { out.new.items ≡ out.old.items ++ bytes.now }
    ensures len { vec_len out.new ≡ vec_len out.old + length bytes.now }
    ensures capacity { vec_capacity out.old ≤ vec_capacity out.new }
{
    let _ = out.extend_from_slice(bytes);
}

/// Puts the digits of a number, at most 20.
fn put_number(number: u64, out: &mut Vec<u8>)
    requires { vec_len out.old + 20 ≤ vec_capacity out.old }
    ensures items { out.new.items ≡ out.old.items ++ decimal number }
    ensures len { vec_len out.new ≤ vec_len out.old + 20 }
    ensures capacity { vec_capacity out.old ≤ vec_capacity out.new }
{
    put(Buffer::new().format(number).as_bytes(), out);
}

/// Puts the answer to an edit.
pub(crate) fn put_edited(rev: u64, out: &mut Vec<u8>)
    requires { vec_len out.old + SHORT ≤ vec_capacity out.old }
    ensures items { out.new.items ≡ out.old.items ++ said_edited rev }
    ensures capacity { vec_capacity out.old ≤ vec_capacity out.new }
{
    put(b"{\"ok\":true,\"rev\":", out);
    put_number(rev, out);
    put(b"}\n", out);
}

/// Puts the line that tells how many settled operations a document has, one of several that are
/// watched, by its number from 1 on.
pub fn put_watched(doc: u32, rev: u64, out: &mut Vec<u8>)
    requires { vec_len out.old + SHORT ≤ vec_capacity out.old }
    ensures items { out.new.items ≡ out.old.items ++ said_watched doc rev }
    ensures capacity { vec_capacity out.old ≤ vec_capacity out.new }
{
    put(b"{\"doc\":", out);
    put_number(doc as u64, out);
    put(b",\"ok\":true,\"rev\":", out);
    put_number(rev, out);
    put(b"}\n", out);
}

/// Puts the answer that says how far a replica is.
pub(crate) fn put_status(applied: u64, settled: u64, state: State, out: &mut Vec<u8>)
    requires { vec_len out.old + SHORT ≤ vec_capacity out.old }
    ensures items { out.new.items ≡ out.old.items ++ said_status applied settled state }
    ensures capacity { vec_capacity out.old ≤ vec_capacity out.new }
{
    put(b"{\"applied\":", out);
    put_number(applied, out);
    put(b",\"ok\":true,\"settled\":", out);
    put_number(settled, out);
    put(b",\"state\":\"", out);
    put(word_of(state).as_bytes(), out);
    put(b"\"}\n", out);
}

/// Puts the answer that tells no more than that all is done.
pub(crate) fn put_done(out: &mut Vec<u8>)
    requires { vec_len out.old + SHORT ≤ vec_capacity out.old }
    ensures items { out.new.items ≡ out.old.items ++ said_done }
    ensures capacity { vec_capacity out.old ≤ vec_capacity out.new }
{
    put(b"{\"ok\":true}\n", out);
}

/// Puts the answer that says why a request isn't served.
pub(crate) fn put_refused(refusal: Refusal, out: &mut Vec<u8>)
    requires { vec_len out.old + SHORT ≤ vec_capacity out.old }
    ensures items { out.new.items ≡ out.old.items ++ said_refused refusal }
    ensures capacity { vec_capacity out.old ≤ vec_capacity out.new }
{
    put(b"{\"code\":", out);
    put_number(refusal.number() as u64, out);
    put(b",\"error\":\"", out);
    put(refusal.word().as_bytes(), out);
    put(b"\",\"ok\":false}\n", out);
}

/// Puts the answer that says which of several edits isn't made, and why.
pub(crate) fn put_refused_at(refusal: Refusal, at: u64, out: &mut Vec<u8>)
    requires { vec_len out.old + SHORT ≤ vec_capacity out.old }
    ensures items { out.new.items ≡ out.old.items ++ said_refused_at refusal at }
    ensures capacity { vec_capacity out.old ≤ vec_capacity out.new }
{
    put(b"{\"at\":", out);
    put_number(at, out);
    put(b",\"code\":", out);
    put_number(refusal.number() as u64, out);
    put(b",\"error\":\"", out);
    put(refusal.word().as_bytes(), out);
    put(b"\",\"ok\":false}\n", out);
}

/// The word of a state.
fn word_of(state: State) -> &'static str
    ensures word { result.now ≡ state_word state }
    ensures short { length result.now ≤ 8 }
{
    match state {
        State::Open => "open",
        State::Stopping => "stopping",
        State::Failed => "failed",
    }
}
