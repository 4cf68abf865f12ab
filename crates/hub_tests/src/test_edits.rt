//! What the tests ask of one replica's edits.
use crate::replica_asks::Wish;
use crate::test_peers::bytes_ending;
use op_ids::Token;
use op_model::{Action, Change, Edit, EditText, Mark, MarkKey};
use replica_core::Replica;
use std::alloc::Global;
use std::num::NonZeroU32;

/// More edits than one opening of a replica has steps for.
const MANY: usize = 1_000_000;

/// An edit of document 1, whatever its number of operations, under a token that ends with this
/// byte if there is one.
pub fn edit(alloc: Global, token: Option<u8>, wish: &Wish) -> Option<Action> {
    let token = match token {
        Some(last) => Token::read(bytes_ending(last)),
        None => None,
    };
    let edit = Edit {
        doc: 1,
        rev: None,
        token,
        change: change(alloc, wish)?,
    };
    Some(Action::one(alloc, edit))
}

/// Several changes of document 1, whatever its number of operations.
pub fn together(alloc: Global, wishes: &[Wish]) -> Option<Action> {
    let mut others = Vec::new(alloc);
    for wish in wishes.get(1..)? {
        others.push(change(alloc, wish)?).ok()?;
    }
    let first = Edit {
        doc: 1,
        rev: None,
        token: None,
        change: change(alloc, wishes.get(0)?)?,
    };
    Action::new(first, others)
}

/// An edit of this document at this rev.
pub fn edit_of(alloc: Global, doc: u32, rev: Option<u32>, wish: &Wish) -> Option<Action> {
    let edit = Edit {
        doc,
        rev,
        token: None,
        change: change(alloc, wish)?,
    };
    Some(Action::one(alloc, edit))
}

fn change(alloc: Global, wish: &Wish) -> Option<Change> {
    Some(match wish {
        Wish::Insert(at, text) => Change::Insert {
            at: *at,
            text: EditText::new(text.chars().collect(alloc).ok()?)?,
        },
        Wish::InsertMany(at, count) => Change::Insert {
            at: *at,
            text: EditText::new(vec![in alloc; 'x'; *count].ok()?)?,
        },
        Wish::Delete(at, count) => Change::Delete {
            at: *at,
            count: NonZeroU32::new(*count)?,
        },
        Wish::Mark(from, to) => Change::Mark {
            from: *from,
            to: *to,
            mark: Mark::Strong,
        },
        Wish::Unmark(from, to) => Change::Unmark {
            from: *from,
            to: *to,
            key: MarkKey::Strong,
        },
    })
}

/// The number of the refusal of an edit, or 0.
pub fn refusal(replica: &mut Replica, edit: Option<Action>) -> Option<usize> {
    match replica.edit(1, &edit?) {
        Ok(_) => Some(0),
        Err(refusal) => Some(refusal.number() as usize),
    }
}

/// The rev of the ticket of an edit, or 0 where it is refused.
pub fn ticket_rev(replica: &mut Replica, edit: Option<Action>) -> Option<usize> {
    match replica.edit(1, &edit?) {
        Ok(ticket) => Some(ticket.rev),
        Err(_) => Some(0),
    }
}

/// How many such edits are made, each of which is settled twice, before one is refused.
pub fn edits_until_refused(replica: &mut Replica, edit: Option<Action>) -> Option<usize> {
    let edit = edit?;
    for count in 0..MANY {
        let Ok(decided) = replica.decide_edit(&edit) else {
            return Some(count);
        };
        if replica.put_edit(1, &edit, decided).is_err() {
            return Some(count);
        }
        let end = replica.list().len();
        replica.settle(end);
        replica.settle(end);
    }
    None
}

/// How many bytes an edit that is made in two calls adds to what waits.
pub fn put_length(replica: &mut Replica, edit: Option<Action>) -> Option<usize> {
    let edit = edit?;
    let Ok(decided) = replica.decide_edit(&edit) else {
        return None;
    };
    match replica.put_edit(1, &edit, decided) {
        Ok(_) => Some(decided.bytes as usize),
        Err(_) => None,
    }
}

/// Makes an edit and settles it: the settled number.
pub fn settled_after(replica: &mut Replica, edit: Option<Action>) -> Option<usize> {
    let edit = edit?;
    let Ok(decided) = replica.decide_edit(&edit) else {
        return None;
    };
    match replica.put_edit(1, &edit, decided) {
        Ok(_) => {
            let end = replica.list().len();
            replica.settle(end);
            Some(replica.settled())
        }
        Err(_) => None,
    }
}
