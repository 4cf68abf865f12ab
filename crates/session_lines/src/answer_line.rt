//! An answer as a line of JSON.
ghost use Rattle.std.specs.Prelude.{◌≡◌, ◌≤◌, ◌+◌, ◌++◌, IsTrue, OnOk, OnErr};
ghost use Rattle.std.specs.Prelude.{vec_len, vec_capacity};
ghost use Rattle.session_lines.specs.Counting.{said_counted, said_versions};
ghost use Rattle.session_lines.specs.Putting.{Puts};
ghost use Rattle.session_lines.specs.Saying.{said, is_long, said_text, said_listed, said_connected};
ghost use Rattle.session_lines.specs.Saying.{said_changed, said_exported, said_named, said_standing};

use crate::answer::Answer;
use crate::change_list::ChangeList;
use crate::changes::put_changes;
use crate::document_list::DocumentList;
use crate::documents::put_documents;
use crate::exported::Exported;
use crate::lasting_list::LastingList;
use crate::numbered::put_numbered;
use crate::peer_list::PeerList;
use crate::peers::put_peers;
use crate::place_list::PlaceList;
use crate::places::{put_anchors, put_places};
use crate::quoted::{put, put_characters, put_quoted_bytes};
use crate::room::put_room;
use crate::short_line::{SHORT, put_done, put_edited, put_refused, put_refused_at, put_status};
use crate::span_list::SpanList;
use crate::spans::put_spans;
use crate::version_list::VersionList;
use crate::versions::put_versions;
use op_model::Text;
use std::alloc::{AllocError, Global};

/// Puts an answer as text behind what is there: compact JSON with its keys in the order of their
/// bytes, and a line feed. An error is out of memory (1), and leaves what is there as it was; where
/// there is room for 128 bytes, it comes for an answer alone that shows what documents have, who is
/// linked, or the room. The time is that of the text's length, and nothing but `out` takes memory.
pub fn say(_alloc: Global, answer: &Answer, out: &mut Vec<u8>) -> Result<(), AllocError>
    ensures ok { OnOk result (out.new.items ≡ out.old.items ++ said answer.now) }
    ensures err { OnErr result (out.new.items ≡ out.old.items) }
    ensures room { OnErr result (vec_len out.old + SHORT ≤ vec_capacity out.old
        → IsTrue (is_long answer.now)) }
    ensures capacity { vec_capacity out.old ≤ vec_capacity out.new }
{
    let before = out.len();
    let done = put_answer(answer, out);
    if done.is_err() {
        out.truncate(before);
    }
    done
}

/// Puts an answer, or some of it if memory is refused.
fn put_answer(answer: &Answer, out: &mut Vec<u8>) -> Result<(), AllocError>
    ensures puts { Puts result out.old out.new (said answer.now) }
    ensures room { OnErr result (vec_len out.old + SHORT ≤ vec_capacity out.old
        → IsTrue (is_long answer.now)) }
{
    out.reserve(SHORT)?;
    match answer {
        Answer::Text { rev, text } => return put_shown(*rev, text, out),
        Answer::Spans { rev, spans } => return put_listed(*rev, spans, out),
        Answer::Versions { rev, versions } => return put_versioned(*rev, versions, out),
        Answer::Changes { rev, changes } => return put_changed(*rev, changes, out),
        Answer::Anchors { rev, anchors } => return put_named(*rev, anchors, out),
        Answer::Places { rev, places } => return put_standing(*rev, places, out),
        Answer::Peers { peers, sessions } => return put_connected(peers, *sessions, out),
        Answer::Exported { rev, text } => return put_exported(*rev, text, out),
        Answer::Documents { documents } => return put_counted(documents, out),
        Answer::Room { room } => return put_room(room, out),
        Answer::Edited { rev } => put_edited(*rev, out),
        Answer::Status {
            applied,
            settled,
            state,
        } => put_status(*applied, *settled, *state, out),
        Answer::Stopped | Answer::Done => put_done(out),
        Answer::Refused(refusal) => put_refused(*refusal, out),
        Answer::RefusedAt { refusal, at } => put_refused_at(*refusal, *at, out),
    }
    Ok(())
}

/// Puts the answer that shows a text.
fn put_shown(rev: u64, text: &Text, out: &mut Vec<u8>) -> Result<(), AllocError>
    ensures { Puts result out.old out.new (said_text rev text.now) }
{
    put_numbered(b"{\"ok\":true,\"rev\":", rev, b",\"text\":", out)?;
    put_characters(text.as_slice(), out)?;
    put(b"}\n", out)
}

/// Puts the answer that lists spans.
fn put_listed(rev: u64, spans: &SpanList, out: &mut Vec<u8>) -> Result<(), AllocError>
    ensures { Puts result out.old out.new (said_listed rev spans.now) }
{
    put_numbered(b"{\"ok\":true,\"rev\":", rev, b",\"spans\":[", out)?;
    put_spans(spans.as_slice(), out)?;
    put(b"}\n", out)
}

/// Puts the answer that lists versions.
fn put_versioned(rev: u64, versions: &VersionList, out: &mut Vec<u8>) -> Result<(), AllocError>
    ensures { Puts result out.old out.new (said_versions rev versions.now) }
{
    put_numbered(b"{\"ok\":true,\"rev\":", rev, b",\"versions\":[", out)?;
    put_versions(versions.as_slice(), out)?;
    put(b"}\n", out)
}

/// Puts the answer that has a document as other programs read it.
fn put_exported(rev: u64, text: &Exported, out: &mut Vec<u8>) -> Result<(), AllocError>
    ensures { Puts result out.old out.new (said_exported rev text.now) }
{
    put_numbered(b"{\"ok\":true,\"rev\":", rev, b",\"text\":", out)?;
    put_quoted_bytes(text.as_slice(), out)?;
    put(b"}\n", out)
}

/// Puts the answer that says who is connected.
fn put_connected(peers: &PeerList, sessions: u64, out: &mut Vec<u8>) -> Result<(), AllocError>
    ensures { Puts result out.old out.new (said_connected peers.now sessions) }
{
    put(b"{\"ok\":true,\"peers\":[", out)?;
    put_peers(peers.as_slice(), out)?;
    put_numbered(b",\"sessions\":", sessions, b"}\n", out)
}

/// Puts the answer that lists documents.
fn put_counted(documents: &DocumentList, out: &mut Vec<u8>) -> Result<(), AllocError>
    ensures { Puts result out.old out.new (said_counted documents.now) }
{
    put(b"{\"documents\":[", out)?;
    put_documents(documents.as_slice(), out)?;
    put(b",\"ok\":true}\n", out)
}

/// Puts the answer what changed.
fn put_changed(rev: u64, changes: &ChangeList, out: &mut Vec<u8>) -> Result<(), AllocError>
    ensures { Puts result out.old out.new (said_changed rev changes.now) }
{
    put(b"{\"changes\":[", out)?;
    put_changes(changes.as_slice(), out)?;
    put_numbered(b",\"ok\":true,\"rev\":", rev, b"}\n", out)
}

/// Puts the answer that names places.
fn put_named(rev: u64, anchors: &LastingList, out: &mut Vec<u8>) -> Result<(), AllocError>
    ensures { Puts result out.old out.new (said_named rev anchors.now) }
{
    put(b"{\"anchors\":[", out)?;
    put_anchors(anchors.as_slice(), out)?;
    put_numbered(b",\"ok\":true,\"rev\":", rev, b"}\n", out)
}

/// Puts the answer where places stand.
fn put_standing(rev: u64, places: &PlaceList, out: &mut Vec<u8>) -> Result<(), AllocError>
    ensures { Puts result out.old out.new (said_standing rev places.now) }
{
    put(b"{\"ok\":true,\"places\":[", out)?;
    put_places(places.as_slice(), out)?;
    put_numbered(b",\"rev\":", rev, b"}\n", out)
}
