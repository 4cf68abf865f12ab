//! The records that wait for the next commit.
ghost use Rattle.std.specs.Prelude.{◌≡◌, ◌++◌, ℕ, List, drop, length, take, true, IfOk, OnOk, OnErr};
ghost use Rattle.change_codec.specs.Stream.{AreOperations};
ghost use Rattle.model_laws.specs.Acting.{NoneRefused};
ghost use Rattle.op_model.specs.Actions.{made_by_action};
ghost use Rattle.op_model.specs.Causality.{IsCausallyClosed};
ghost use Rattle.op_model.specs.declared.edit.Edit.{Edit};
ghost use Rattle.op_model.specs.declared.op.Op.{Op as Operation};
ghost use Rattle.op_model.specs.Made.{is_small, made as made_of, size_of};
ghost use Rattle.op_model.specs.Waiting.{change_length, changes_length, text_length};
ghost use Rattle.op_pieces.specs.Typed.{IsTyped};
ghost use Rattle.hub_parts.specs.Adding.{Adds};

use change_codec::{every_op_has_a_spelling, put_op, put_ops};
use op_model::{Action, Change, Op};
use piece_codec::put_typed;
use std::alloc::AllocError;

/// Puts the records of what an action made behind those that wait: what each of its changes typed
/// is one record, and each other operation has its own. An error is out of memory (1), and leaves
/// what waits as it was.
pub(crate) fn put_made(ops: &[Op], action: &Action, waiting: &mut Vec<u8>) -> Result<(), AllocError>
    requires { (list : List Operation) × (replica : ℕ) × IsCausallyClosed list
        × NoneRefused list replica action.now.doc action.now.token action.now.changes
        × (ops.now ≡ made_by_action list replica action.now) }
    ensures ok { OnOk result (Adds waiting.old.items waiting.new.items ops.now
        (changes_length action.now.changes ops.now)) }
    ensures err { OnErr result (waiting.new.items ≡ waiting.old.items) }
{
    let before = waiting.len();
    match put_changes(ops, action, waiting) {
        Ok(()) => Ok(()),
        Err(refused) => {
            waiting.truncate(before);
            Err(refused)
        }
    }
}

/// The same, but that an error leaves some of the records there.
fn put_changes(ops: &[Op], action: &Action, waiting: &mut Vec<u8>) -> Result<(), AllocError>
    requires { (list : List Operation) × (replica : ℕ) × IsCausallyClosed list
        × NoneRefused list replica action.now.doc action.now.token action.now.changes
        × (ops.now ≡ made_by_action list replica action.now) }
    ensures ok { OnOk result (Adds waiting.old.items waiting.new.items ops.now
        (changes_length action.now.changes ops.now)) }
    ensures behind { (some : List ℕ) × (waiting.new.items ≡ waiting.old.items ++ some) }
{
    let first = &action.first().change;
    let mut rest = put_first(ops, first, waiting)?;
    let others = action.others();
    for change in others {
        rest = put_first(rest, change, waiting)?;
    }
    Ok(())
}

/// Puts the records of those of these operations that a small change made, which are the first
/// ones, and returns the others. An error is out of memory (1), and leaves what waits as it was.
fn put_first<'a>(
    ops: &'a [Op],
    change: &Change,
    waiting: &mut Vec<u8>,
) -> Result<&'a [Op], AllocError>
    requires { (list more : List Operation) × (replica : ℕ) × (edit : Edit)
        × (ops.now ≡ made_of list replica edit ++ more) × (edit.change ≡ change.now)
        × (length (made_of list replica edit) ≡ size_of change.now)
        × (is_small change.now ≡ true) }
    ensures put { OnOk result (Adds waiting.old.items waiting.new.items
        (take (size_of change.now) ops.now)
        (change_length change.now (take (size_of change.now) ops.now))) }
    ensures rest { IfOk result (λ rest. rest.now ≡ drop (size_of change.now) ops.now) }
    ensures err { OnErr result (waiting.new.items ≡ waiting.old.items) }
{
    let (made, rest) = ops.split_at(change.size());
    put_change(made, change, waiting)?;
    Ok(rest)
}

/// Puts the records of what a small change made.
fn put_change(made: &[Op], change: &Change, waiting: &mut Vec<u8>) -> Result<(), AllocError>
    requires made { (list : List Operation) × (replica : ℕ) × (edit : Edit)
        × (made.now ≡ made_of list replica edit) × (edit.change ≡ change.now) }
    requires small { is_small change.now ≡ true }
    ensures ok { OnOk result (Adds waiting.old.items waiting.new.items made.now
        (change_length change.now made.now)) }
    ensures err { OnErr result (waiting.new.items ≡ waiting.old.items) }
{
    match change {
        Change::Insert { text, .. } => {
            all_fit(made);
            put_text(made, text.as_slice(), waiting)
        }
        Change::Delete { .. } | Change::Mark { .. } | Change::Unmark { .. } => {
            put_ops(made, waiting)
        }
    }
}

/// Puts the records of the operations that type this text behind those that wait: one record, which
/// for two or more characters is that of a run.
fn put_text(ops: &[Op], text: &[char], waiting: &mut Vec<u8>) -> Result<(), AllocError>
    requires typed { IsTyped ops.now text.now }
    requires fits { AreOperations ops.now }
    ensures ok { OnOk result (Adds waiting.old.items waiting.new.items ops.now
        (text_length ops.now)) }
    ensures err { OnErr result (waiting.new.items ≡ waiting.old.items) }
{
    if text.len() < 2 {
        return put_ops(ops, waiting);
    }
    let mut first = Vec::new(*waiting.allocator());
    put_op(&ops[0], &mut first)?;
    waiting.reserve(first.len() + 2 + 4 * (text.len() - 1))?;
    put_typed(&first, text[0], &text[1..], waiting);
    Ok(())
}

/// Each operation keeps the rules of its fields. It reads them, and changes nothing.
fn all_fit(ops: &[Op])
    ensures { AreOperations ops.now }
{
    let mut i = ops.len();
    while i > 0 {
        i -= 1;
        every_op_has_a_spelling(&ops[i]);
    }
}
