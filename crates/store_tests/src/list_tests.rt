//! Lists of operations that are held as records.
use crate::test_names::id;
use crate::test_ops::ops;
use crate::test_rows::{Case, World, counted, named, play, told, two_of};
use change_codec::stream_length;
use op_list::OpList;
use op_model::Op;
use std::alloc::Global;
use std::test::Fail;

/// One operation of each kind.
const EACH_KIND: &str = "1 insert 0 é
    2 remove
    3 mark link-to-the-end
    4 unmark comment";

/// Operations, and a list of them.
#[derive(Drop)]
struct Listed {
    ops: Vec<Op>,
    list: OpList,
}

/// The operations, held.
fn list_of(alloc: Global, ops: &[Op]) -> Result<OpList, Fail> {
    if stream_length(ops) > 1_000 {
        Err("too long")?;
    }
    let mut list = OpList::new(alloc);
    list.append(ops)?;
    Ok(list)
}

/// Whether the i-th operation that is held is the i-th one.
fn is_got(alloc: Global, listed: &Listed, i: usize) -> Result<bool, Fail> {
    let slice = listed.list.as_slice();
    if i >= slice.len() {
        return Err("too many".into());
    }
    let expected = listed.ops.get(i).ok_or("too many")?;
    Ok(slice.get(alloc, i)? == *expected)
}

/// Whether the i-th operation that is held has the name of the i-th one; its document, and whether
/// it is an insert.
fn head(alloc: Global, listed: &Listed, i: usize) -> Result<String, Fail> {
    let slice = listed.list.as_slice();
    if i >= slice.len() {
        return Err("too many".into());
    }
    let head = slice.head(i);
    let (is_named, doc, is_insert) = (head.id == id(i as u64 + 1)?, head.doc, head.is_insert);
    Ok(format!(in alloc; "{is_named} {doc} {is_insert}")?)
}

/// Whether a copy of the first `end` held operations from the n-th on is of these operations.
fn is_copied(listed: &Listed, end: usize, n: usize) -> Result<bool, Fail> {
    let slice = listed.list.as_slice();
    if end > slice.len() || n > end {
        return Err("too many".into());
    }
    let copy = slice.front(end).copy_from(listed.list.allocator(), n)?;
    let expected = listed.ops.get(n..end).ok_or("too many")?;
    Ok(copy.as_slice() == expected)
}

/// Cuts a list, and tells how long it is then.
fn truncate(alloc: Global, list: &mut OpList, n: usize) -> Result<String, Fail> {
    list.truncate(n);
    counted(alloc, list.len())
}

impl World for Listed {
    fn answer(&mut self, alloc: Global, command: &str, words: &str) -> Result<String, Fail> {
        let (first, second) = two_of(words)?;
        let (first, second) = (first as usize, second as usize);
        match command {
            "len" => counted(alloc, self.list.len()),
            "get" => told(alloc, is_got(alloc, self, first)),
            "head" => head(alloc, self, first),
            "copy" => told(alloc, is_copied(self, first, second)),
            "cut" => truncate(alloc, &mut self.list, first),
            _ => Err("no such command".into()),
        }
    }
}

/// Plays rows over a list of one operation of each kind.
fn plays(rt: &HostRuntime, rows: &str) -> Result<(), Fail> {
    let ops = ops(rt.alloc(), 7, EACH_KIND)?;
    let list = list_of(rt.alloc(), &ops)?;
    play(rt.alloc(), &mut Listed { ops, list }, rows)
}

static CASES: [Case; 4] = [
    (
        "operations of each kind are read back",
        "len : 4
        get 0 : true
        get 1 : true
        get 2 : true
        get 3 : true",
    ),
    (
        "heads are those of the operations",
        "len : 4
        head 0 : true 7 true
        head 1 : true 7 false
        head 2 : true 7 false
        head 3 : true 7 false",
    ),
    ("the rest is copied", "copy 3 1 : true"),
    (
        "a list is cut",
        "cut 9 : 4
        cut 2 : 2
        copy 2 0 : true",
    ),
];

#[test]
fn a_list_holds_its_records(rt: HostRuntime) -> Result<(), Fail> {
    for (name, rows) in &CASES {
        named(&rt, name, plays(&rt, rows))?;
    }
    Ok(())
}
