//! Root bodies: which bytes are one, and which bytes one is written in.
use crate::test_files::bytes_of;
use crate::test_rows::{Case, World, named, play};
use crate::test_store::replica;
use change_codec::Format;
use root_slots::{RootBody, RootHead};
use std::alloc::Global;
use std::test::Fail;

/// The body whose first bytes words say. The rest is zero.
pub(crate) fn body_of(alloc: Global, words: &str) -> Result<Vec<u8>, Fail> {
    let mut bytes = bytes_of(alloc, words)?;
    bytes.resize(4088, 0)?;
    Ok(bytes)
}

/// Whether a root is of the replica, and written in these bytes.
fn is_written(alloc: Global, root: &RootBody, bytes: &[u8]) -> Result<bool, Fail> {
    Ok(root.replica() == replica()? && root.write(alloc)?.as_slice() == bytes)
}

/// What a root says that is written in these bytes.
fn said(alloc: Global, root: &RootBody, bytes: &[u8]) -> Result<String, Fail> {
    if !is_written(alloc, root, bytes)? {
        return Err("another replica or other bytes".into());
    }
    let (format, version, stream) = (root.format(), root.version(), root.stream_length());
    let (operations, tables) = (root.operations(), root.tables());
    Ok(format!(in alloc;
        "{format:?} version {version}, {stream} bytes, {operations} in {tables:?}"
    )?)
}

/// What bytes say as a root body.
fn read(alloc: Global, bytes: &[u8]) -> Result<String, Fail> {
    match RootBody::read(alloc, bytes)? {
        Some(root) => said(alloc, &root, bytes),
        None => Ok(String::from_str(alloc, "no root")?),
    }
}

/// What the body of these words says, cut off behind `len` bytes.
fn read_body(alloc: Global, words: &str, len: usize) -> Result<String, Fail> {
    let mut body = body_of(alloc, words)?;
    body.truncate(len);
    read(alloc, &body)
}

/// A root after a second commit, which is made anew.
fn second(alloc: Global) -> Result<RootBody, Fail> {
    let mut tables = Vec::new(alloc);
    tables.push(5)?;
    let head = RootHead {
        format: Format::First,
        version: 3,
        replica: replica()?,
        stream_length: 126,
        operations: 2,
    };
    Ok(RootBody::new(head, tables).ok_or("no root")?)
}

/// What that root says, which is written in the body of these words.
fn said_second(alloc: Global, words: &str) -> Result<String, Fail> {
    let body = body_of(alloc, words)?;
    said(alloc, &second(alloc)?, &body)
}

/// Bodies need nothing to be held.
#[derive(Drop)]
struct Bodies;

impl World for Bodies {
    fn answer(&mut self, alloc: Global, command: &str, words: &str) -> Result<String, Fail> {
        match command {
            "read" => read_body(alloc, words, 4088),
            "short" => read_body(alloc, words, 4087),
            "second" => said_second(alloc, words),
            _ => Err("no such command".into()),
        }
    }
}

/// Plays rows of bodies.
fn plays(rt: &HostRuntime, rows: &str) -> Result<(), Fail> {
    play(rt.alloc(), &mut Bodies, rows)
}

static CASES: [Case; 5] = [
    (
        "a made file has an empty root",
        "read MADE_BODY : First version 1, 0 bytes, 0 in []",
    ),
    (
        "roots of commits are read and written back",
        "read FIRST_BODY : First version 2, 39 bytes, 1 in [3]
        second SECOND_BODY : First version 3, 126 bytes, 2 in [5]",
    ),
    (
        "the magic tells the format",
        "read 5054585450473031 0000000000000001 A : First version 1, 0 bytes, 0 in []
        read 5054585450473032 0000000000000001 A : Second version 1, 0 bytes, 0 in []
        read 5054585450473033 0000000000000001 A : Third version 1, 0 bytes, 0 in []",
    ),
    // Another magic, version 0, a nil replica; too long a stream, too many operations, no table
    // page, a gap that isn't zero.
    (
        "a broken body is no root",
        "read 5054585450473034 0000000000000001 A : no root
        read 5054585450473031 0000000000000000 A : no root
        read 5054585450473031 0000000000000001 00000000000000000000000000000000 : no root
        read VERSION_1 0000000040000001 0000000000000000 00000101 00000000 : no root
        read VERSION_1 0000000000000000 0000000001000001 00000000 00000000 : no root
        read VERSION_1 0000000000000001 0000000000000001 00000000 00000000 : no root
        read VERSION_1 0000000000000000 0000000000000000 00000000 00000001 : no root",
    ),
    // A root slot as a table page, and a rest that isn't zero. Two table pages for a stream of
    // 4,194,305 bytes, each its own. One byte too few.
    (
        "a broken table list is no root",
        "read ONE_TABLE 00000002 : First version 2, 39 bytes, 1 in [2]
        read ONE_TABLE 00000001 : no root
        read ONE_TABLE 00000002 00000001 : no root
        read TWO_TABLES 00000002 00000003 : First version 2, 4194305 bytes, 1 in [2, 3]
        read TWO_TABLES 00000002 00000002 : no root
        short MADE_BODY : no root",
    ),
];

#[test]
fn roots_are_read_and_written_back(rt: HostRuntime) -> Result<(), Fail> {
    for (name, rows) in &CASES {
        named(&rt, name, plays(&rt, rows))?;
    }
    Ok(())
}
