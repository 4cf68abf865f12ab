//! Lists of operations that are held as runs.
use crate::test_names::id;
use crate::test_ops::{op, ops};
use crate::test_rows::{Case, World, counted, named, nothing, play, told, two_of};
use op_model::Op;
use run_list::RunList;
use std::alloc::Global;
use std::test::Fail;

/// Two runs of characters, a remove between them, and a mark behind them.
const TWO_RUNS: &str = "1 insert 0 é
    2 remove
    3 mark link-to-the-end
    4 insert 1 a
    5 insert 4 b
    6 insert 5 c
    7 insert 5 d
    8 insert 7 e";

/// Puts the pieces of operations behind a list.
fn put_pieces(alloc: Global, list: &mut RunList, ops: &[Op]) -> Result<(), Fail> {
    for piece in &op_pieces::cut(alloc, ops)? {
        list.append_piece(piece)?;
    }
    Ok(())
}

/// Puts the operations of another list from the n-th on behind a list.
fn put_rest(list: &mut RunList, other: &RunList, n: usize) -> Result<(), Fail> {
    if n > other.len() {
        return Err("too short".into());
    }
    list.extend_from(&other.as_slice(), n)?;
    Ok(())
}

/// Operations, and a list of them.
#[derive(Drop)]
struct Runs {
    ops: Vec<Op>,
    list: RunList,
}

/// Makes room, and puts operations behind a list, one by one.
fn put_each(alloc: Global, list: &mut RunList, ops: &[Op]) -> Result<String, Fail> {
    list.reserve(8, 1_000)?;
    for op in ops {
        list.append(std::slice::from_ref(op))?;
    }
    nothing(alloc)
}

/// Puts operations behind a list at once.
fn put_all(alloc: Global, list: &mut RunList, ops: &[Op]) -> Result<String, Fail> {
    list.append(ops)?;
    nothing(alloc)
}

/// Puts operations behind a list, the pieces of the first `n` and then those of the others.
fn put_parts(alloc: Global, list: &mut RunList, ops: &[Op], n: usize) -> Result<String, Fail> {
    put_pieces(alloc, list, ops.get(..n).ok_or("too many")?)?;
    put_pieces(alloc, list, ops.get(n..).ok_or("too many")?)?;
    nothing(alloc)
}

/// Whether the i-th operation that is held is the i-th one, and has no token.
fn is_held(runs: &Runs, i: usize) -> Result<bool, Fail> {
    let slice = runs.list.as_slice();
    if i >= slice.len() {
        return Err("too many".into());
    }
    let expected = runs.ops.get(i).ok_or("too many")?;
    Ok(slice.token(i).is_none() && slice.get(i)? == *expected)
}

/// Whether the i-th operation that is held has the name of the i-th one; its document, and whether
/// it is an insert.
fn head(alloc: Global, list: &RunList, i: usize) -> Result<String, Fail> {
    let slice = list.as_slice();
    if i >= slice.len() {
        return Err("too many".into());
    }
    let head = slice.head(i);
    let (is_named, doc, is_insert) = (head.id == id(i as u64 + 1)?, head.doc, head.is_insert);
    Ok(format!(in alloc; "{is_named} {doc} {is_insert}")?)
}

/// Whether a reader of the list reads the operations, one after another.
fn is_read(runs: &Runs) -> Result<bool, Fail> {
    let slice = runs.list.as_slice();
    let mut reader = slice.reader();
    for i in 0..slice.len() {
        reader.read()?;
        if *reader.op() != *runs.ops.get(i).ok_or("too many")? {
            return Ok(false);
        }
    }
    Ok(true)
}

/// Puts one more operation behind a list, and cuts it off again.
fn cut(alloc: Global, list: &mut RunList) -> Result<String, Fail> {
    let more = op(alloc, 7, "9 insert 8 f")?;
    let before = list.len();
    list.append(std::slice::from_ref(&more))?;
    list.truncate(before);
    nothing(alloc)
}

/// Whether a copy of the first `end` held operations is of these operations.
fn is_copied(alloc: Global, runs: &Runs, end: usize) -> Result<bool, Fail> {
    let slice = runs.list.as_slice();
    if end > slice.len() {
        return Err("too many".into());
    }
    let copy = slice.front(end).copy_from(alloc, 0)?;
    Ok(copy.as_slice() == runs.ops.get(..end).ok_or("too many")?)
}

/// Whether a list equals no front of another but the first `n` operations.
fn is_front(list: &RunList, other: &RunList, n: usize) -> bool {
    for k in 0..other.len().saturating_add(1) {
        if list.equals(&other.as_slice().front(k)) != (k == n) {
            return false;
        }
    }
    true
}

/// Puts the first `n` operations of another list behind a list, one by one.
fn put_front(list: &mut RunList, other: &RunList, n: usize) -> Result<(), Fail> {
    if n > other.len() {
        return Err("too many".into());
    }
    let front = other.as_slice().front(n);
    for i in 0..n {
        list.append(std::slice::from_ref(&front.get(i)?))?;
    }
    Ok(())
}

/// Whether the first `n` operations put one by one are held as that front alone, and with the rest
/// behind them as the list.
fn is_one_way(alloc: Global, list: &RunList, n: usize) -> Result<bool, Fail> {
    let mut other = RunList::new(alloc);
    put_front(&mut other, list, n)?;
    let is_first = is_front(&other, list, n);
    put_rest(&mut other, list, n)?;
    Ok(is_first && other.equals(&list.as_slice()))
}

impl World for Runs {
    fn answer(&mut self, alloc: Global, command: &str, words: &str) -> Result<String, Fail> {
        let (n, _) = two_of(words)?;
        let n = n as usize;
        match command {
            "each" => put_each(alloc, &mut self.list, &self.ops),
            "all" => put_all(alloc, &mut self.list, &self.ops),
            "pieces" => put_parts(alloc, &mut self.list, &self.ops, n),
            "length" => counted(alloc, self.list.as_slice().len()),
            "read" => told(alloc, is_read(self)),
            "held" => told(alloc, is_held(self, n)),
            "head" => head(alloc, &self.list, n),
            "cut" => cut(alloc, &mut self.list),
            "copy" => told(alloc, is_copied(alloc, self, n)),
            "one-way" => told(alloc, is_one_way(alloc, &self.list, n)),
            _ => Err("no such command".into()),
        }
    }
}

/// Plays rows over an empty list and two runs of operations.
fn plays(rt: &HostRuntime, rows: &str) -> Result<(), Fail> {
    let ops = ops(rt.alloc(), 7, TWO_RUNS)?;
    let list = RunList::new(rt.alloc());
    play(rt.alloc(), &mut Runs { ops, list }, rows)
}

static CASES: [Case; 5] = [
    (
        "what was typed is read back",
        "each
        length : 8
        held 0 : true
        head 0 : true 7 true
        held 1 : true
        head 1 : true 7 false
        held 2 : true
        head 2 : true 7 false
        held 3 : true
        head 3 : true 7 true
        held 4 : true
        head 4 : true 7 true
        held 5 : true
        head 5 : true 7 true
        held 6 : true
        head 6 : true 7 true
        held 7 : true
        head 7 : true 7 true",
    ),
    (
        "pieces go on with the run before",
        "pieces 5
        length : 8
        copy 8 : true
        one-way 8 : true",
    ),
    (
        "a list is read in its order",
        "read : true
        all
        length : 8
        read : true",
    ),
    (
        "a list of runs is cut",
        "all
        cut
        length : 8
        copy 8 : true
        copy 5 : true",
    ),
    (
        "each list is held in one way",
        "all
        length : 8
        one-way 0 : true
        one-way 1 : true
        one-way 2 : true
        one-way 3 : true
        one-way 4 : true
        one-way 5 : true
        one-way 6 : true
        one-way 7 : true
        one-way 8 : true",
    ),
];

#[test]
fn a_list_holds_its_runs(rt: HostRuntime) -> Result<(), Fail> {
    for (name, rows) in &CASES {
        named(&rt, name, plays(&rt, rows))?;
    }
    Ok(())
}
